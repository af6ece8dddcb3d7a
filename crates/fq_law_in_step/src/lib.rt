//! What a laboratory relies on in the outputs of pairs, as laws: they can be read again as FASTQ,
//! mates are in step, nothing is lost, and the sums of a report add up.
//!
//! Each function of this crate has no parameters and does nothing. Its contract is a law about the
//! definitions that the contracts of the other crates use, so it holds for every list of steps and
//! every text. The laws have only these premises:
//!
//! - A read can be read again if it is plain: its title doesn't end in CR, and the first base that
//!   is left of it is neither `@` nor `+` ([`letters_are_plain`]).
//! - Under `TOPHRED33` the outputs are read in Sanger's encoding (Phred+33).
#![tactic(auto)]

mod everything;
mod outputs;
mod reads;
mod reports;

pub use everything::nothing_is_lost;
pub use outputs::{
    inputs_give_pairs, mates_stay_in_step, outputs_have_four_lines_each, pairs_go_one_way,
    texts_are_joined,
};
pub use reads::{letters_are_plain, reads_stay_in_one_piece};
pub use reports::{removed_bases_are_logged, report_lists_add_up, reports_add_up};

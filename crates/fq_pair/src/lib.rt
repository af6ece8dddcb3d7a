//! Pairs of mates: read from FASTQ texts, trimmed, and turned into what a run writes, which is four
//! texts of records, the trim log and the counts.
//!
//! [`PairSource`] reads the pairs of two inputs and [`MixedSource`] those of an interleaved one.
//! [`Texts`] collects what is written for them, pair by pair.
#![tactic(auto)]

mod answer;
mod counts;
mod fault;
mod inputs;
mod interleaved_source;
mod log_line;
mod name;
mod out;
mod pair;
mod pair_source;
mod reader;
mod side;
mod texts;
mod unmatched;

pub use counts::{Counts, summary};
pub use fault::InputFault;
pub use inputs::Inputs;
pub use interleaved_source::MixedSource;
pub use name::{NameLengths, name_of, names_match};
pub use out::Out;
pub use pair::{Pair, PairView};
pub use pair_source::PairSource;
pub use reader::PairReader;
pub use side::Side;
pub use texts::Texts;
pub use unmatched::UnmatchedNames;

//! The command line: the program's commands with their help, and what a call asks for.
//!
//! [`read_words`] parses the arguments with `clap` and returns what they ask for, [`Asked`]. The
//! ranges of the numbers of a [`Request`], and the texts of its encoding and steps, are not checked
//! yet.
#![tactic(auto)]

mod help;
mod laws;
mod request;
mod words;

pub use fq_pair::Inputs;
pub use laws::usual_command_lines;
pub use request::{Request, report_is_input, same_name};
pub use words::{Asked, VERSION, read_words};

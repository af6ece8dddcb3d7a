//! The faults of arguments that name steps.

use thiserror::Error;

/// What is wrong with the arguments that name steps. If an argument has several faults, the first
/// in the order from `Unknown` on is reported.
#[derive(Clone, Copy, Debug, PartialEq, Eq, Error)]
pub enum StepFaultKind {
    /// There is no argument.
    #[error("NoSteps")]
    NoSteps,
    /// There are more than 64 arguments.
    #[error("TooMany")]
    TooMany,
    /// The text before the first colon is not the name of a step.
    #[error("Unknown")]
    Unknown,
    /// The step takes more numbers, or fewer. A colon with nothing after it counts as a number.
    #[error("WrongCount")]
    WrongCount,
    /// A number is not 1 to 9 ASCII digits.
    #[error("BadNumber")]
    BadNumber,
    /// The window has 0 bases.
    #[error("OutOfRange")]
    OutOfRange,
}

/// The first fault in the arguments that name steps. It prints as `bad step 2: WrongCount`.
#[derive(Clone, Copy, Debug, PartialEq, Eq, Error)]
#[error("bad step {place}: {kind}")]
pub struct StepFault {
    /// The number of the faulty argument, counted from 1; 0 for `NoSteps` and 65 for `TooMany`.
    pub place: usize,
    /// What is wrong with that argument.
    pub kind: StepFaultKind,
}

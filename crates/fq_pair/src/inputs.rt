//! The names of the inputs.

/// The inputs of pairs, by their names.
#[derive(Clone, Copy)]
pub enum Inputs<'a> {
    /// Forward and reverse reads, in one file each.
    Apart { forward: &'a str, reverse: &'a str },
    /// One interleaved file: a forward read, then its reverse mate, and so on.
    Interleaved(&'a str),
}

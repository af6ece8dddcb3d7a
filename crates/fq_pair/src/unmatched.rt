//! The names of mates that don't belong together.

ghost use Rattle.std.specs.Prelude.{◌≡◌, false, IfOk};
ghost use Rattle.fq_pair.specs.Mates.{names_in, names_match};

use crate::name::name_of;
use crate::side::Side;
use fq_text::OutOfMemory;
use std::alloc::Global;
use std::marker::Model;

/// The names of two mates, as [`names_match`](crate::names_match) compares them. They differ: names
/// that are the same make no such value.
#[derive(Drop)]
pub struct UnmatchedNames {
    forward: Vec<u8>,
    reverse: Vec<u8>,
}

impl Model for UnmatchedNames {
    ghost use Rattle.std.specs.Prelude.{◌≡◌, false};
    ghost use Rattle.std.specs.Str.{bytes_eq};
    ghost use Rattle.fq_pair.specs.Mates.{MateNames};

    ghost Value = { MateNames };

    ghost view = { λ n. record { forward = n.forward.items; reverse = n.reverse.items } };

    ghost invariant = { λ n. bytes_eq n.forward.items n.reverse.items ≡ false };
}

impl UnmatchedNames {
    // Copies the names out of two titles.
    pub(crate) fn of_titles(
        alloc: Global,
        forward: &[u8],
        reverse: &[u8],
    ) -> Result<UnmatchedNames, OutOfMemory>
        requires { names_match forward.now reverse.now ≡ false }
        ensures { IfOk result (λ names. names ≡ names_in forward.now reverse.now) }
    {
        let forward = Vec::from_slice(alloc, name_of(forward, Side::Forward))?;
        let reverse = Vec::from_slice(alloc, name_of(reverse, Side::Reverse))?;
        Ok(UnmatchedNames { forward, reverse })
    }

    /// The name of the forward mate.
    pub fn forward(&self) -> &[u8]
        ensures { result.now ≡ self.now.forward }
    {
        &self.forward
    }

    /// The name of the reverse mate.
    pub fn reverse(&self) -> &[u8]
        ensures { result.now ≡ self.now.reverse }
    {
        &self.reverse
    }
}

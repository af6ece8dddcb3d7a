//! Scores in vectors (SIMD).

ghost use Rattle.std.specs.Prelude.{◌≡◌, ◌-◌, map};

use std::simd::prelude::*;

/// Subtracts `offset` from each of 16 bytes. A byte that is smaller becomes 0.
#[inline(always)]
pub(crate) fn less_16(bytes: u8x16, offset: u8) -> u8x16
    ensures { result ≡ map (λ byte. byte - offset) bytes }
{
    bytes.saturating_sub(u8x16::splat(offset))
}

/// Subtracts `offset` from each of 32 bytes. A byte that is smaller becomes 0.
#[inline(always)]
pub(crate) fn less_32(bytes: u8x32, offset: u8) -> u8x32
    ensures { result ≡ map (λ byte. byte - offset) bytes }
{
    bytes.saturating_sub(u8x32::splat(offset))
}

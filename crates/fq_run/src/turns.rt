//! Whose turn it is.

ghost use Rattle.std.specs.Prelude.{◌≡◌, ◌<◌, ◌%◌, suc};

/// The index of the next lane; after the last comes the first.
pub(crate) fn next_turn(turn: usize, lanes: usize) -> usize
    requires { turn < lanes }
    ensures value { result ≡ suc turn % lanes }
    ensures below { result < lanes }
{
    (turn + 1) % lanes
}

//! Laws of dealing and gathering.

ghost use Rattle.std.specs.Prelude.{◌≡◌, ℕ, ◌<◌, List};
ghost use Rattle.fq_run.specs.Shares.{deal, gather};

/// Dealing a list out to several lists in turn, and gathering from them in turn, gives the list
/// back.
pub fn gather_deal<T>()
    ensures { (xs : List T) (w : ℕ) → 0 < w → gather (deal xs w) ≡ xs }
{}

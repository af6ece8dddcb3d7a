//! What both forms of a source of pairs do in each call.

ghost use Rattle.std.specs.Prelude.{◌≡◌, ◌+◌, ◌≤◌, true, false, Some, None, Ok, Err, IfErr, IsSome, MatchOption};
ghost use Rattle.fq_text.specs.Reading.{text_limit};
ghost use Rattle.fq_text.specs.Sources.{KeepsCount, GivesRecord, EndsText, StopsText, failed_in};
ghost use Rattle.fq_pair.specs.PairSources.{IsBounded};

use crate::fault::InputFault;
use fq_text::{FastqRecord, Feed, Source, TextFault};

/// Moves to the next record of a source. A record in `copy` becomes a copy of it.
pub(crate) fn read_record<F: Feed>(
    source: &mut Source<F>,
    copy: &mut Option<FastqRecord>,
) -> Result<bool, TextFault>
    requires { source.old.last ≡ None }
    ensures found { result ≡ Ok true →
        MatchOption source.new.current ⊥ (GivesRecord F.state source.old source.new) }
    ensures copied { result ≡ Ok true → IsSome copy.old → copy.new ≡ source.new.current }
    ensures end { result ≡ Ok false → EndsText F.state source.old source.new }
    ensures fault { IfErr result (StopsText F.state source.old source.new) }
    ensures failures { (F.state source.new.feed).failures
        ≡ (F.state source.old.feed).failures + failed_in result }
    ensures count { KeepsCount F.state source.old source.new }
    ensures bounded { IsBounded source.new }
    ensures fits { source.new.given ≤ text_limit }
{
    match copy {
        Some(copy) => source.next_into(copy),
        None => source.advance(),
    }
}

/// Returns `answer` unchanged. Counts a further pair (`true`) in `given`, and stores the end or a
/// fault in `last`.
pub(crate) fn keep(
    answer: Result<bool, InputFault>,
    given: &mut u64,
    last: &mut Option<Result<(), InputFault>>,
) -> Result<bool, InputFault>
    requires { answer ≡ Ok true → given.old + 1 ≤ text_limit }
    ensures same { result ≡ answer }
    ensures pair { answer ≡ Ok true → (given.new ≡ given.old + 1) × (last.new ≡ last.old) }
    ensures end { answer ≡ Ok false → (given.new ≡ given.old) × (last.new ≡ Some (Ok tt)) }
    ensures fault { IfErr answer (λ why. (given.new ≡ given.old) × (last.new ≡ Some (Err why))) }
{
    match &answer {
        Ok(true) => *given += 1,
        Ok(false) => *last = Some(Ok(())),
        Err(why) => *last = Some(Err(*why)),
    }
    answer
}

//! `do: pairs` reads pairs from the texts `forward` and `reverse`, or from the text `interleaved`,
//! in `encoding`, by at most `max reads` read calls of at most `chunk` bytes. Read call
//! `fails at read` (of the forward or the interleaved text) and read call `reverse fails at read`
//! fail. Names are compared unless `names` is `unchecked`. Pairs are lent if `form` is `lent`, and
//! owned otherwise. They are trimmed by `steps`.
//!
//! Answers: `titles`, a line with the two titles of each pair; `end`, what the source returns after
//! the pairs, each time it is asked; the outputs `fp`, `fu`, `rp`, `ru` and `log`; `counts`;
//! `number`, the number of pairs; `summary`; `failures`, how often each feed failed; `cleared`, the
//! counts after the texts are cleared.

ghost use Rattle.std.specs.Prelude.{◌≡◌, true, Ok, IfOk, IsSome};
ghost use Rattle.fq_pair.specs.PairSources.{IsUnasked};

use crate::answers::Answers;
use crate::encoding_in;
use crate::mates::put_counts;
use crate::row::Given;
use crate::steps::steps_in;
use anyhow::{Result, bail};
use fq_pair::{
    InputFault, MixedSource, Out, Pair, PairReader, PairSource, PairView, Texts, summary,
};
use fq_run_core::CALL_LIMIT;
use fq_text::{Encoding, Feed, ScriptFeed, Source};
use fq_trim::Steps;
use std::alloc::Global;

// A source that can also give its pairs away.
trait PairGiver {
    fn give(&mut self) -> std::result::Result<Option<Pair>, InputFault>;
}

impl<F: Feed, G: Feed> PairGiver for PairSource<F, G> {
    fn give(&mut self) -> std::result::Result<Option<Pair>, InputFault> {
        self.next()
    }
}

impl<F: Feed> PairGiver for MixedSource<F> {
    fn give(&mut self) -> std::result::Result<Option<Pair>, InputFault> {
        self.next()
    }
}

// Whether a pair came, or the fault.
type Came = std::result::Result<bool, InputFault>;

// What is written for pairs. It is passed on in a `Box`, as sources are: these have many parts, and
// each function that holds one on its stack has a long proof.
#[derive(Drop)]
struct Left {
    texts: Texts,
    titles: Vec<u8>,
}

fn source_of(
    alloc: Global,
    given: &Given<'_>,
    text: &[u8],
    encoding: Encoding,
    fail_at: u64,
) -> Result<Source<ScriptFeed>>
    ensures unasked { IfOk result IsUnasked }
    ensures encoding { IfOk result (λ source. source.encoding ≡ encoding) }
{
    let chunk = given.number("chunk", 1000)? as usize;
    let max_reads = given.number("max reads", CALL_LIMIT)?;
    if chunk == 0 || chunk > 1_048_576 || max_reads == 0 || max_reads > CALL_LIMIT {
        bail!("no such reads");
    }
    let feed = ScriptFeed::new(alloc, text, 1000, fail_at)?;
    let Ok(source) = Source::new(alloc, feed, encoding, chunk, max_reads) else {
        bail!("no memory for a source");
    };
    Ok(source)
}

// Makes a source of the pairs of two texts.
fn pairs_of(
    alloc: Global,
    given: &Given<'_>,
    names: bool,
) -> Result<Box<PairSource<ScriptFeed, ScriptFeed>>> {
    let encoding = encoding_in(given)?;
    let fails = given.number("fails at read", 0)?;
    let forward = source_of(alloc, given, given.bytes("forward"), encoding, fails)?;
    let fails = given.number("reverse fails at read", 0)?;
    let reverse = source_of(alloc, given, given.bytes("reverse"), encoding, fails)?;
    Ok(Box::new(alloc, PairSource::new(forward, reverse, names))?)
}

// Makes a source of the pairs of an interleaved text.
fn interleaved_of(
    alloc: Global,
    given: &Given<'_>,
    text: &[u8],
    names: bool,
) -> Result<Box<MixedSource<ScriptFeed>>> {
    let encoding = encoding_in(given)?;
    let fails = given.number("fails at read", 0)?;
    let source = source_of(alloc, given, text, encoding, fails)?;
    Ok(Box::new(alloc, MixedSource::new(source, names))?)
}

// Adds what is written for a pair.
fn add(left: &mut Left, pair: PairView<'_>, steps: &Steps) -> Result<()> {
    left.titles.extend_from_slice(pair.forward.title())?;
    left.titles.push(b' ')?;
    left.titles.extend_from_slice(pair.reverse.title())?;
    left.titles.push(b'\n')?;
    if left.texts.counts().pairs == u64::MAX {
        bail!("too many pairs");
    }
    left.texts.add(pair, steps)?;
    Ok(())
}

fn advance<S: PairReader>(pairs: &mut S) -> Came
    ensures { result ≡ Ok true → IsSome (S.state pairs.new).current }
{
    pairs.advance_pair()
}

fn add_given<S: PairGiver>(pairs: &mut S, left: &mut Left, steps: &Steps) -> Result<Came> {
    match pairs.give() {
        Ok(Some(pair)) => {
            add(left, pair.view(), steps)?;
            Ok(Ok(true))
        }
        Ok(None) => Ok(Ok(false)),
        Err(fault) => Ok(Err(fault)),
    }
}

fn add_lent<S: PairReader>(pairs: &mut S, left: &mut Left, steps: &Steps) -> Result<Came> {
    let came = advance(pairs);
    if let Ok(true) = came {
        add(left, pairs.pair_in_hand(), steps)?;
    }
    Ok(came)
}

// Adds the next pair, if there is one.
fn add_next<S: PairReader + PairGiver>(
    pairs: &mut S,
    left: &mut Left,
    steps: &Steps,
    lent: bool,
) -> Result<Came> {
    if lent {
        add_lent(pairs, left, steps)
    } else {
        add_given(pairs, left, steps)
    }
}

// Adds the pairs. Returns what comes after them; it is an error if the source does not return that
// each time.
fn add_all<S: PairReader + PairGiver>(
    pairs: &mut S,
    left: &mut Left,
    steps: &Steps,
    lent: bool,
) -> Result<Came> {
    let mut last = Ok(true);
    for _ in 0..100u8 {
        if last == Ok(true) {
            last = add_next(pairs, left, steps, lent)?;
        } else if add_next(pairs, left, steps, lent)? != last {
            bail!("the last answer does not stay");
        }
    }
    Ok(last)
}

// Adds the pairs of two texts. Returns what comes after them, and how often each feed failed.
fn add_apart(
    alloc: Global,
    given: &Given<'_>,
    left: &mut Left,
    steps: &Steps,
    lent: bool,
    names: bool,
) -> Result<(Came, u64, u64)> {
    let mut pairs = pairs_of(alloc, given, names)?;
    let came = add_all(&mut *pairs, left, steps, lent)?;
    let (forward, reverse) = Box::into_inner(pairs).into_feeds();
    Ok((came, forward.failures(), reverse.failures()))
}

// Adds the pairs of an interleaved text. Returns what comes after them, and how often the feed
// failed.
fn add_interleaved(
    alloc: Global,
    given: &Given<'_>,
    text: &[u8],
    left: &mut Left,
    steps: &Steps,
    lent: bool,
    names: bool,
) -> Result<(Came, u64, u64)> {
    let mut pairs = interleaved_of(alloc, given, text, names)?;
    let came = add_all(&mut *pairs, left, steps, lent)?;
    Ok((came, Box::into_inner(pairs).into_feed().failures(), 0))
}

// Adds the pairs of a row.
fn add_row(alloc: Global, given: &Given<'_>, left: &mut Left) -> Result<(Came, u64, u64)> {
    let steps = steps_in(alloc, given)?;
    let lent = given.text("form")? == "lent";
    let names = given.text("names")? != "unchecked";
    match given.find("interleaved") {
        Some(text) => add_interleaved(alloc, given, text, left, &steps, lent, names),
        None => add_apart(alloc, given, left, &steps, lent, names),
    }
}

/// The outputs, each with its key in rows.
pub const OUTPUTS: [(&str, Out); 5] = [
    ("fp", Out::ForwardPaired),
    ("fu", Out::ForwardUnpaired),
    ("rp", Out::ReversePaired),
    ("ru", Out::ReverseUnpaired),
    ("log", Out::Log),
];

/// The output with this key.
pub fn out_of(key: &str) -> Result<Out> {
    for (known, out) in OUTPUTS {
        if known == key {
            return Ok(out);
        }
    }
    bail!("no output is {key:?}")
}

fn put_texts(alloc: Global, answers: &mut Answers, texts: &Texts) -> Result<()> {
    for (key, out) in OUTPUTS {
        answers.put(key, texts.text(out))?;
    }
    let counts = texts.counts();
    put_counts(alloc, answers, "counts", counts)?;
    let number = counts.pairs;
    answers.put("number", format!(in alloc; "{number}")?.as_bytes())?;
    answers.put("summary", summary(alloc, &counts)?.as_bytes())?;
    Ok(())
}

// Clears the texts, and puts their counts.
fn put_cleared(alloc: Global, answers: &mut Answers, texts: &mut Texts) -> Result<()> {
    texts.clear();
    for (_, out) in OUTPUTS {
        if !texts.text(out).is_empty() {
            bail!("a text is not cleared");
        }
    }
    put_counts(alloc, answers, "cleared", texts.counts())
}

/// Puts the answers to a `do: pairs` row.
pub fn answer(alloc: Global, given: &Given<'_>, answers: &mut Answers) -> Result<()> {
    given.allow(&[
        "forward",
        "reverse",
        "interleaved",
        "encoding",
        "chunk",
        "max reads",
        "fails at read",
        "reverse fails at read",
        "names",
        "form",
        "steps",
    ])?;
    let left = Left {
        texts: Texts::new(alloc),
        titles: Vec::new(alloc),
    };
    let mut left = Box::new(alloc, left)?;
    let (came, forward, reverse) = add_row(alloc, given, &mut left)?;
    match came {
        Ok(_) => answers.put("end", b"the end")?,
        Err(fault) => answers.put("end", format!(in alloc; "{fault:?}")?.as_bytes())?,
    }
    answers.put(
        "failures",
        format!(in alloc; "{forward} {reverse}")?.as_bytes(),
    )?;
    answers.put("titles", &left.titles)?;
    put_texts(alloc, answers, &left.texts)?;
    put_cleared(alloc, answers, &mut left.texts)
}

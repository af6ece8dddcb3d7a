//! `do: done` has a worker's `work_block` trim the pairs of the texts `forward` and `reverse` by
//! `steps`, all as the block `number`. It does so once for each word of `asks`, which are separated
//! by commas, each time into the same `Done`; after `yes` the pairs are added to a new tally, after
//! `no` to none.
//!
//! Answers, for the last time: `number`, `counts`, `fp`, `fu`, `rp`, `ru` and `log`; `tallied`, and
//! the answers of a `do: tally` row if so.
//!
//! `do: work` deals these pairs to a worker, in blocks of one, and confirms both its lanes. The
//! worker asks the gate about a block at most `gate turns` times. The gate refuses the first
//! `gate refuses` times, and the block `gate refuses block` each time. The lane of used blocks has
//! room for `room` of them. With `tally: yes` the blocks are tallied. With `used texts: yes` the
//! worker can take used texts: those of the second of the two pairs, as block 7.
//!
//! Answers: `replies`, the number of each block that was answered, and `stop` for a stop; `cause`,
//! why the worker stopped; with the number of a block in front, as in `0 fp`, the texts of a reply,
//! its `counts`; `tallied`, the number of forward reads that the worker tallied; `used blocks`, the
//! numbers of those that came back; `used texts taken`; `asked`, how often the gate was asked.

ghost use Rattle.std.specs.Prelude.{◌≡◌, true, IfOk, OnOk};

use crate::answers::Answers;
use crate::blocks::{pairs_in, push_next, push_row};
use crate::mates::put_counts;
use crate::pairs::OUTPUTS;
use crate::row::Given;
use crate::steps::steps_in;
use crate::tallies::put_tally;
use anyhow::{Result, bail};
use fq_block::Block;
use fq_lane::{End, Rx, Taken, Tx, lane};
use fq_pair::{PairSource, Texts};
use fq_report_pairs::Tally;
use fq_test_texts::{SECOND_FORWARD, SECOND_REVERSE, ScriptGate, source_of};
use fq_text::{Encoding, ScriptFeed};
use fq_trim::Steps;
use fq_work::{Done, Reply, WorkEnds, Worked, work, work_block};
use std::alloc::Global;
use std::fmt::Write;
use std::sync::{Arc, Wait};

// The room of the lanes of blocks and of replies.
const ROOM: usize = 8;

// Functions pass a block, a `Done` or a reply in a `Box`: these have many parts, and each function
// that owns one on its stack has a long proof.
fn no_pairs(alloc: Global, number: u64) -> Result<Box<Block>> {
    Ok(Box::new(alloc, Block::new(alloc, number, Encoding::Sanger))?)
}

fn nothing_done(alloc: Global) -> Result<Box<Done>> {
    Ok(Box::new(alloc, Done::new(alloc, 0))?)
}

// A new tally, if one is asked for.
fn tally_if(alloc: Global, tallied: bool) -> Result<Option<Tally>> {
    if tallied {
        Ok(Some(Tally::new(alloc)?))
    } else {
        Ok(None)
    }
}

// Puts texts and counts, with these words in front of their keys.
fn put_texts(alloc: Global, answers: &mut Answers, front: &str, texts: &Texts) -> Result<()> {
    for (key, out) in OUTPUTS {
        let key = format!(in alloc; "{front}{key}")?;
        answers.put(&key, texts.text(out))?;
    }
    let key = format!(in alloc; "{front}counts")?;
    put_counts(alloc, answers, &key, texts.counts())
}

fn put_number(alloc: Global, answers: &mut Answers, key: &str, number: u64) -> Result<()> {
    answers.put(key, format!(in alloc; "{number}")?.as_bytes())?;
    Ok(())
}

fn put_done(
    alloc: Global,
    answers: &mut Answers,
    done: &Done,
    tally: &Option<Tally>,
) -> Result<()> {
    put_number(alloc, answers, "number", done.number)?;
    put_texts(alloc, answers, "", &done.texts)?;
    answers.put_yes("tallied", tally.is_some())?;
    match tally {
        Some(tally) => put_tally(alloc, answers, tally),
        None => Ok(()),
    }
}

// Works on a block once for each word of a row, and puts what was made the last time.
fn put_made(alloc: Global, given: &Given<'_>, answers: &mut Answers, block: &Block) -> Result<()> {
    let steps = steps_in(alloc, given)?;
    let mut done = nothing_done(alloc)?;
    let mut tally = None;
    for word in given.text("asks")?.split(',') {
        tally = tally_if(alloc, word == "yes")?;
        work_block(block, &steps, &mut done, &mut tally)?;
    }
    put_done(alloc, answers, &done, &tally)
}

/// Puts the answers to a `do: done` row.
pub fn answer_done(alloc: Global, given: &Given<'_>, answers: &mut Answers) -> Result<()> {
    given.allow(&["forward", "reverse", "steps", "number", "asks"])?;
    let mut block = no_pairs(alloc, given.number("number", 0)?)?;
    push_row(alloc, &mut block, given, 100)?;
    put_made(alloc, given, answers, &block)
}

// Block 7, which has the second of the two pairs.
fn second_pair(alloc: Global) -> Result<Box<Block>> {
    let forward = source_of(alloc, SECOND_FORWARD, Encoding::Sanger)?;
    let reverse = source_of(alloc, SECOND_REVERSE, Encoding::Sanger)?;
    let mut pairs = Box::new(alloc, PairSource::new(forward, reverse, true))?;
    let mut block = no_pairs(alloc, 7)?;
    push_next(&mut block, &mut pairs)?;
    Ok(block)
}

fn used_texts(alloc: Global, steps: &Steps) -> Result<Box<Done>> {
    let block = second_pair(alloc)?;
    let mut done = nothing_done(alloc)?;
    work_block(&block, steps, &mut done, &mut None)?;
    Ok(done)
}

// Whether the lane has room for the item. Generic, as are the next three functions: a proof about
// texts, blocks or replies would be long.
fn offers<T: Drop>(lane: &mut Tx<T>, item: Box<T>) -> bool {
    lane.offer(Box::into_inner(item)).is_ok()
}

// Returns what comes next, if something is there.
fn next_item<T: Drop>(alloc: Global, lane: &mut Rx<T>) -> Result<Option<Box<T>>>
    ensures { lane.new.name ≡ lane.old.name }
{
    match lane.take() {
        Taken::Item(item) => Ok(Some(Box::new(alloc, item)?)),
        Taken::Empty | Taken::Closed => Ok(None),
    }
}

// Makes a lane with this room.
fn lane_of<T: Drop>(alloc: Global, room: usize) -> Result<(Tx<T>, Rx<T>)>
    ensures { IfOk result (λ ends. ends.1.name ≡ ends.0.name) }
{
    if room < 1 || room > 64 {
        bail!("no lane has room for {room}");
    }
    Ok(lane(alloc, room)?)
}

// Closes a lane whose receiver is there.
fn close<T: Drop>(lane: Tx<T>) -> Result<End<T>>
    ensures { IfOk result (λ end. end.name ≡ lane.name) }
{
    match lane.close() {
        Ok(end) => Ok(end),
        Err(_) => bail!("the receiver was dropped"),
    }
}

// The next pair, as the block of this number, if there is one.
fn next_block(
    alloc: Global,
    pairs: &mut PairSource<ScriptFeed, ScriptFeed>,
    number: u64,
) -> Result<Option<Box<Block>>> {
    let mut block = no_pairs(alloc, number)?;
    Ok(push_next(&mut block, pairs)?.then_some(block))
}

// Deals the pairs of a row in blocks of one, from number 0, and closes their lane.
fn deal<R: Wait>(
    rt: &R,
    alloc: Global,
    given: &Given<'_>,
    mut blocks: Tx<Block>,
) -> Result<End<Block>>
    ensures { IfOk result (λ end. end.name ≡ blocks.name) }
{
    let mut pairs = pairs_in(alloc, given, Encoding::Sanger)?;
    for number in 0..ROOM as u64 {
        match next_block(alloc, &mut pairs, number)? {
            Some(block) => blocks.put(rt, Box::into_inner(block)),
            None => return close(blocks),
        }
    }
    bail!("more pairs than the lane has room for")
}

// What a worker is asked to do.
#[derive(Clone, Copy)]
struct Task {
    steps: Steps,
    tallied: bool,
    gate_turns: u64,
}

fn task_in(alloc: Global, given: &Given<'_>) -> Result<Task> {
    Ok(Task {
        steps: steps_in(alloc, given)?,
        tallied: given.text("tally")? == "yes",
        gate_turns: given.number("gate turns", 1)?,
    })
}

fn gate_in(given: &Given<'_>) -> Result<ScriptGate> {
    let refused = match given.find("gate refuses block") {
        Some(_) => Some(given.number("gate refuses block", 0)?),
        None => None,
    };
    Ok(ScriptGate::new(given.number("gate refuses", 0)?, refused))
}

// Runs the worker on what was dealt.
fn work_on<R: Wait>(
    rt: &R,
    alloc: Global,
    task: &Task,
    ends: WorkEnds,
    gate: Arc<ScriptGate>,
) -> Worked
    ensures blocks { (result.rx.name ≡ ends.rx.name) × (result.rx.marked ≡ true) }
    ensures replies { IfOk result.closing (λ end. end.name ≡ ends.tx.name) }
{
    work(alloc, rt, ends, task.steps, gate, task.gate_turns)
}

// Puts what the reply to a block says.
fn put_reply(alloc: Global, answers: &mut Answers, said: &mut String, reply: &Reply) -> Result<()> {
    let Reply::Done(done) = reply else {
        write!(said, " stop")?;
        return Ok(());
    };
    let number = done.number;
    write!(said, " {number}")?;
    put_texts(
        alloc,
        answers,
        &format!(in alloc; "{number} ")?,
        &done.texts,
    )
}

// Puts what the replies say, up to the mark.
fn put_replies(alloc: Global, answers: &mut Answers, replies: &mut Rx<Reply>) -> Result<()>
    ensures name { replies.new.name ≡ replies.old.name }
    ensures closed { OnOk result (replies.new.marked ≡ true) }
{
    let mut said = String::new(alloc);
    for _place in 0..ROOM {
        if let Some(reply) = next_item(alloc, replies)? {
            put_reply(alloc, answers, &mut said, &reply)?;
        }
    }
    if !replies.is_closed() {
        bail!("the mark did not come");
    }
    answers.put("replies", said.trim_start().as_bytes())?;
    Ok(())
}

// Puts the replies and why the worker stopped, and confirms both lanes.
fn put_worked(
    alloc: Global,
    answers: &mut Answers,
    worked: Worked,
    dealt: End<Block>,
    mut replies: Rx<Reply>,
) -> Result<()>
    requires closed { worked.rx.marked ≡ true }
    requires blocks { dealt.name ≡ worked.rx.name }
    requires replies { IfOk worked.closing (λ end. end.name ≡ replies.name) }
{
    let Worked {
        mut rx,
        closing,
        cause,
        tally,
    } = worked;
    let reads = match &tally {
        Some(tally) => tally.forward.counts().before.reads,
        None => 0,
    };
    put_number(alloc, answers, "tallied", reads)?;
    answers.put("cause", format!(in alloc; "{cause:?}")?.as_bytes())?;
    put_replies(alloc, answers, &mut replies)?;
    let Ok(end) = closing else {
        bail!("the receiver of the replies was dropped")
    };
    rx.confirm(dealt);
    replies.confirm(end);
    Ok(())
}

// Deals the pairs of a row, runs the worker, and puts what it replied.
fn put_work<R: Wait>(
    rt: &R,
    alloc: Global,
    given: &Given<'_>,
    answers: &mut Answers,
    blocks_back: Tx<Block>,
    texts_back: Rx<Done>,
    gate: Arc<ScriptGate>,
) -> Result<()> {
    let task = task_in(alloc, given)?;
    let (blocks, rx) = lane_of(alloc, ROOM)?;
    let (tx, replies) = lane_of(alloc, ROOM)?;
    let dealt = deal(rt, alloc, given, blocks)?;
    let ends = WorkEnds {
        rx,
        tx,
        blocks_back,
        texts_back,
        tally: tally_if(alloc, task.tallied)?,
    };
    let worked = work_on(rt, alloc, &task, ends, gate);
    put_worked(alloc, answers, worked, dealt, replies)
}

// Puts the numbers of the blocks that came back.
fn put_used(alloc: Global, answers: &mut Answers, mut used: Rx<Block>) -> Result<()> {
    let mut said = String::new(alloc);
    for _ in 0..ROOM {
        if let Some(block) = next_item(alloc, &mut used)? {
            let number = block.number();
            write!(said, " {number}")?;
        }
    }
    if used.is_closed() {
        bail!("the lane of used blocks is closed");
    }
    answers.put("used blocks", said.trim_start().as_bytes())?;
    Ok(())
}

// The lane of used texts. Its sender is dropped if the row has none. Otherwise they fill the lane.
fn texts_lane(alloc: Global, given: &Given<'_>) -> Result<(Option<Tx<Done>>, Rx<Done>)> {
    let (mut texts, texts_back) = lane_of(alloc, 1)?;
    if given.text("used texts")? != "yes" {
        return Ok((None, texts_back));
    }
    let used = used_texts(alloc, &steps_in(alloc, given)?)?;
    if !offers(&mut texts, used) || offers(&mut texts, nothing_done(alloc)?) {
        bail!("the lane of used texts has not room for one");
    }
    Ok((Some(texts), texts_back))
}

/// Puts the answers to a `do: work` row.
pub fn answer<R: Wait>(
    rt: &R,
    alloc: Global,
    given: &Given<'_>,
    answers: &mut Answers,
) -> Result<()> {
    given.allow(&[
        "forward",
        "reverse",
        "steps",
        "gate turns",
        "gate refuses",
        "gate refuses block",
        "room",
        "tally",
        "used texts",
    ])?;
    let (blocks_back, used) = lane_of(alloc, given.number("room", 4)? as usize)?;
    let (texts, texts_back) = texts_lane(alloc, given)?;
    let gate = Arc::new(alloc, gate_in(given)?)?;
    let shared = Arc::try_clone(&gate)?;
    put_work(rt, alloc, given, answers, blocks_back, texts_back, shared)?;
    put_used(alloc, answers, used)?;
    if let Some(mut texts) = texts {
        let is_free = offers(&mut texts, nothing_done(alloc)?);
        answers.put_yes("used texts taken", is_free)?;
    }
    put_number(alloc, answers, "asked", gate.asked())
}

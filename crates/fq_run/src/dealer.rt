//! The thread of a run that reads.

ghost use Rattle.std.specs.Prelude.{◌≡◌, ◌≢◌, ◌≤◌, ◌<◌, true, None, [], length, vec_len, vec_capacity};
ghost use Rattle.std.specs.List.{AllZip};
ghost use Rattle.fq_run.specs.Doing.{awaits_start, closes};
ghost use Rattle.fq_run.specs.dealer.DealingOut.{MayDeal, DealsOut};
ghost use Rattle.fq_run.specs.dealer.Dealt.{CanDeal, HasDealt, Closed};

mod blocks;
pub(crate) mod dealing;
pub(crate) mod dealt;
pub(crate) mod ends;
mod filling;
pub(crate) mod waiting;

use blocks::deal_blocks;
use dealt::Dealt;
use ends::DealerEnds;
use fq_block::Block;
use fq_lane::{End, NotEnded, Rx};
use fq_pair::PairReader;
use fq_run_core::Settings;
use fq_run_core::shared::ReadingEnd;
use std::alloc::Global;
use std::sync::Wait;
use waiting::DealerWaits;

/// What a dealer takes to its thread.
#[derive(Drop)]
pub(crate) struct Dealer<S> {
    /// The receiver of the start lane.
    pub(crate) start: Rx<()>,
    /// The pairs.
    pub(crate) source: S,
    /// The ends of lanes to and from each worker.
    pub(crate) to: Vec<DealerEnds>,
    /// Room for the ends of the lanes of blocks.
    pub(crate) closings: Vec<Result<End<Block>, NotEnded>>,
}

/// Waits for the start item, reads all pairs, deals them out in blocks to the workers in turn, and
/// closes all lanes. If no start item comes, it reads nothing, and closes the lanes.
pub(crate) fn deal<R: Wait, S: PairReader>(
    alloc: Global,
    rt: &R,
    settings: &Settings,
    dealer: Dealer<S>,
) -> Dealt<S>
    requires start { dealer.start.items ≡ [] }
    requires deals { CanDeal settings.now (S.state dealer.source) dealer }
    ensures { HasDealt settings.now (S.state dealer.source) (S.state result.source)
        dealer.start result.start dealer.to.items result.closings.items result.why }
{
    let Dealer {
        mut start,
        mut source,
        mut to,
        closings,
    } = dealer;
    let mut waits = DealerWaits::new(rt);
    let why = deal_from(
        alloc,
        &mut waits,
        settings,
        &mut start,
        &mut source,
        &mut to,
    );
    Dealt {
        start,
        closings: close_all(&mut waits, to, closings),
        why,
        source,
    }
}

// Deals once the start item has come, and takes the start lane to its mark. If only the mark comes,
// nothing is read.
#[tactic(auto, using(std::proofs::lemmas::Grind::common_steps, crate::proofs::dealer::DealerLemmas::deals_nothing))]
fn deal_from<R: Wait, S: PairReader>(
    alloc: Global,
    waits: &mut DealerWaits<'_, R>,
    settings: &Settings,
    start: &mut Rx<()>,
    source: &mut S,
    to: &mut Vec<DealerEnds>,
) -> Option<ReadingEnd>
    requires next { waits.old ≡ awaits_start }
    requires start { start.old.items ≡ [] }
    requires deals { MayDeal settings.now (S.state source.old) (vec_len to.old) to.old.items }
    ensures name { start.new.name ≡ start.old.name }
    ensures closed { start.new.marked ≡ true }
    ensures started { 0 < length start.new.items → result ≢ None }
    ensures idle { start.new.items ≡ []
        → (result ≡ None) × (source.new ≡ source.old) × (to.new ≡ to.old) }
    ensures deals { DealsOut settings.now (S.state source.old)
        (S.state source.new) to.old.items to.new.items result }
    ensures next { waits.new ≡ closes 0 }
{
    waits.take_start(start)?;
    let why = deal_blocks(alloc, waits, settings, source, to);
    waits.pass_start(start);
    Some(why)
}

// Closes all lanes.
#[tactic(auto, using(std::proofs::lemmas::Grind::common_steps, crate::proofs::EachLemmas::one_counted, crate::proofs::EachLemmas::zip_push))]
fn close_all<R>(
    waits: &mut DealerWaits<'_, R>,
    to: Vec<DealerEnds>,
    closings: Vec<Result<End<Block>, NotEnded>>,
) -> Vec<Result<End<Block>, NotEnded>>
    requires next { waits.old ≡ closes 0 }
    requires room { (closings.items ≡ []) × (vec_len to ≤ vec_capacity closings) }
    ensures closed { AllZip Closed to.items result.items }
    ensures next { waits.new ≡ closes (vec_len result) }
{
    let mut closings = closings;
    for ends in to {
        let closing = waits.close_lane(closings.len(), ends);
        closings.push_reserved(closing);
    }
    closings
}

//! Starts a dealer.

ghost use Rattle.std.specs.Prelude.{◌≡◌, [], IfOk};
ghost use Rattle.fq_run.specs.dealer.Dealt.{CanDeal};

use crate::dealer::dealt::Dealt;
use crate::dealer::ends::DealerEnds;
use crate::dealer::{Dealer, deal};
use fq_lane::Rx;
use fq_pair::PairReader;
use fq_run_core::Settings;
use fq_text::{MemoryRefused, OutOfMemory};
use std::alloc::Global;
use std::snapshot::Snapshot;
use std::sync::Wait;
use std::thread;
use std::thread::{Promise, PromisedHandle, Threads};

/// What a dealer is started with: the settings, the start lane, the lanes of blocks and the pairs.
/// `kept_by` says, in terms of these, what joining the dealer returns.
#[derive(Drop)]
pub(crate) struct Dealing<S> {
    pub(crate) settings: Settings,
    pub(crate) start: Snapshot<Rx<()>>,
    pub(crate) to: Snapshot<Vec<DealerEnds>>,
    pub(crate) source: Snapshot<S>,
}

impl<S: PairReader> Promise<Dealt<S>> for Dealing<S> {
    ghost use Rattle.fq_run.specs.dealer.Dealt.{HasDealt};

    ghost kept_by = { λ dealing dealt. HasDealt dealing.settings
        (S.state dealing.source.value) (S.state dealt.source)
        dealing.start.value dealt.start dealing.to.value.items dealt.closings.items dealt.why };
}

/// Starts the dealer. If its thread was refused, returns the witness of that; the source is then
/// lost.
pub(crate) fn start_dealer<
    R: Threads + Wait + Copy + Send + 'static,
    S: PairReader + Drop + Send + 'static,
>(
    alloc: Global,
    rt: &R,
    settings: &Settings,
    dealer: Dealer<S>,
) -> Result<PromisedHandle<Dealt<S>, Dealing<S>>, MemoryRefused>
    requires start { dealer.start.items ≡ [] }
    requires deals { CanDeal settings.now (S.state dealer.source) dealer }
    ensures settings { IfOk result (λ h. h.promise.settings ≡ settings.now) }
    ensures start { IfOk result (λ h. h.promise.start.value ≡ dealer.start) }
    ensures to { IfOk result (λ h. h.promise.to.value ≡ dealer.to) }
    ensures source { IfOk result (λ h. h.promise.source.value ≡ dealer.source) }
{
    let dealing = Dealing {
        settings: *settings,
        start: Snapshot::of(&dealer.start),
        to: Snapshot::of(&dealer.to),
        source: Snapshot::of(&dealer.source),
    };
    let own = *rt;
    let settings = *settings;
    match thread::spawn_with(rt, dealing, move || deal(alloc, &own, &settings, dealer)) {
        Ok(hand) => Ok(hand),
        Err(e) => Err(MemoryRefused::from(OutOfMemory::from(e))),
    }
}

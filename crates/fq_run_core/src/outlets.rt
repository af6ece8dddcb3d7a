//! The outlets that a run writes to.

ghost use Rattle.std.specs.Prelude.{◌≡◌};
ghost use Rattle.fq_pair.specs.Outputs.{text_of};
ghost use Rattle.fq_run_core.specs.Sending.{SendsTo, FlushesOne};

use fq_pair::{Out, Texts};
use fq_text::{Outlet, send};

/// The outlets that take the texts of a run.
#[derive(Drop)]
pub struct Outlets<O> {
    /// Forward reads whose mate also survives.
    pub forward_paired: O,
    /// Forward reads whose mate is dropped.
    pub forward_unpaired: O,
    /// Reverse reads whose mate also survives.
    pub reverse_paired: O,
    /// Reverse reads whose mate is dropped.
    pub reverse_unpaired: O,
    /// The trim log, if one is written.
    pub log: Option<O>,
}

impl<O: Outlet> Outlets<O> {
    ghost use Rattle.std.specs.Prelude.{◌≡◌, None};
    ghost use Rattle.fq_run_core.specs.Devices.{outlet_states, AreHealthy};
    ghost use Rattle.fq_run_core.specs.Sending.{Sends, Flushes};
    ghost use Rattle.fq_run_core.specs.Writing.{FlushesAfter};

    /// Sends each text to its outlet, in the order of [`Out`], until one fails. The error is the
    /// outlet that failed.
    ///
    /// The outlets before that one have then taken their texts, that one the beginning of its text,
    /// and those after it nothing. The log is written only if it has an outlet.
    #[tactic(auto, using(std::proofs::lemmas::Grind::common_steps, crate::proofs::OutletLemmas::fourth_breaks, crate::proofs::OutletLemmas::broken))]
    pub fn write(&mut self, texts: &Texts) -> Result<(), Out>
        requires { AreHealthy (outlet_states O.state self.old) }
        ensures { Sends (outlet_states O.state self.old)
            (outlet_states O.state self.new) texts.now result }
    {
        send_to(&mut self.forward_paired, texts, Out::ForwardPaired)?;
        send_to(&mut self.forward_unpaired, texts, Out::ForwardUnpaired)?;
        send_to(&mut self.reverse_paired, texts, Out::ReversePaired)?;
        send_to(&mut self.reverse_unpaired, texts, Out::ReverseUnpaired)?;
        if let Some(log) = &mut self.log {
            send_to(log, texts, Out::Log)?;
        }
        Ok(())
    }

    /// Flushes each outlet once, in the order of [`Out`], until one fails. The error is the outlet
    /// that failed.
    pub(crate) fn flush(&mut self) -> Result<(), Out>
        requires { AreHealthy (outlet_states O.state self.old) }
        ensures { Flushes (outlet_states O.state self.old) (outlet_states O.state self.new) result }
    {
        flush_one(&mut self.forward_paired, Out::ForwardPaired)?;
        flush_one(&mut self.forward_unpaired, Out::ForwardUnpaired)?;
        flush_one(&mut self.reverse_paired, Out::ReversePaired)?;
        flush_one(&mut self.reverse_unpaired, Out::ReverseUnpaired)?;
        if let Some(log) = &mut self.log {
            flush_one(log, Out::Log)?;
        }
        Ok(())
    }

    /// Flushes the outlets if no write failed, each once and in the order of [`Out`], up to the
    /// first that fails. Returns the outlet that failed, now or before.
    pub fn flush_after(&mut self, failed: Option<Out>) -> Option<Out>
        requires { failed ≡ None → AreHealthy (outlet_states O.state self.old) }
        ensures { FlushesAfter failed (outlet_states O.state self.old)
            (outlet_states O.state self.new) result }
    {
        match failed {
            Some(out) => Some(out),
            None => self.flush().err(),
        }
    }
}

// Sends one of the texts to its outlet.
fn send_to<O: Outlet>(outlet: &mut O, texts: &Texts, out: Out) -> Result<(), Out>
    requires { (O.state outlet.old).failures ≡ 0 }
    ensures { SendsTo (O.state outlet.old) (O.state outlet.new) (text_of out texts.now) out result }
{
    send(outlet, texts.text(out)).map_err(|_| out)
}

// Flushes one outlet.
fn flush_one<O: Outlet>(outlet: &mut O, out: Out) -> Result<(), Out>
    requires { (O.state outlet.old).failures ≡ 0 }
    ensures { FlushesOne (O.state outlet.old) (O.state outlet.new) out result }
{
    outlet.flush().map_err(|_| out)
}

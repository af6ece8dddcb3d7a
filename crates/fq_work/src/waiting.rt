//! How a worker waits: by one function, for one thing at a time.

ghost use Rattle.std.specs.Prelude.{◌≡◌};
ghost use Rattle.fq_work.specs.Doing.{Reply as Word, MayMove};
ghost use Rattle.fq_work.specs.Waiting.{cause_in, cause_after, then_sent, then_got, doing_of, move_of};

use crate::reply::{Cause, Reply};
use fq_block::Block;
use fq_lane::{Rx, Tx};
use std::sync::Wait;

/// What a worker does next.
#[derive(Drop)]
pub(crate) enum Action {
    /// Takes a block, or the mark. After its stop it has the cause, and takes only what is left.
    Take(Option<Cause>),
    /// Puts this reply.
    Put(Reply),
}

/// How its wait ended, if not at the mark.
#[derive(Drop)]
pub(crate) enum Event {
    /// It has got a block, if there is a cause after its stop.
    Got(Block, Option<Cause>),
    /// It has sent a reply, a stop if there is a cause.
    Sent(Option<Cause>),
}

/// Does this, and waits until it is done. At the mark of the blocks it returns why the worker had
/// stopped, if it had.
pub(crate) fn perform<R: Wait>(
    rt: &R,
    rx: &mut Rx<Block>,
    tx: &mut Tx<Reply>,
    action: Action,
) -> Result<Event, Option<Cause>>
    ensures sent { tx.new ≡ then_sent action tx.old }
    ensures got { rx.new ≡ then_got result rx.old }
    ensures cause { cause_after result ≡ cause_in action }
    // It is one move of the worker of the model, whatever the reply to a block will be.
    ensures moves { (reply : Word) → MayMove (doing_of action) (move_of result reply) }
{
    match action {
        Action::Take(cause) => match rx.take_wait(rt) {
            Some(block) => Ok(Event::Got(block, cause)),
            None => Err(cause),
        },
        Action::Put(reply) => {
            let cause = reply.cause();
            tx.put(rt, reply);
            Ok(Event::Sent(cause))
        }
    }
}

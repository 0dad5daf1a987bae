// The Running: a Runnable that has begun becomes a Polled by poll.
ghost use Rattle.cell.specs.declared.call.Call.TheVariants.{At};
ghost use Rattle.rack.specs.Racks.{Stepped};
ghost use Rattle.handles.specs.Handles.{unspent, Spends, bay_of};

use super::handle::{Clones, Handle, Wakes};
use super::polled::Polled;
use super::refused::Refused;
use cell::call::Act;
use cell::cell::Bay;
use cell::report::Report;
use polls::Future;
use rack::calls;
use schedule::Schedule;

// A Runnable that has begun: its future is to be polled.
pub type Running = Handle<ToPoll>;

// The kind of a Running: poll is next.
pub enum ToPoll {}

impl Clones for ToPoll {}

impl Wakes for ToPoll {}

impl Running {
    // Polls the future with a word.
    pub fn poll<F: Future, S: Schedule>(
        self,
        bays: &mut [Bay<F, F::Output>],
        policy: &mut S,
        word: u32,
    ) -> Result<(Polled, Report<F::Output>), Refused<Running>>
        ensures { Spends self (λ r. (unspent (bay_of self), r)) (λ o. Stepped F.Future.step S.Schedule bays.old policy.old (At (bay_of self) (Act.Poll word)) o bays.new policy.new) result }
    {
        let bay = self.bay();
        let report = self.settle(calls::poll(bays, policy, bay, word))?;
        Ok((Polled::new(bay), report))
    }
}

// The Polled: a Runnable whose future has been polled is spent by finish, which exists here alone.
ghost use Rattle.cell.specs.declared.call.Call.TheVariants.{At};
ghost use Rattle.rack.specs.Racks.{Stepped};
ghost use Rattle.handles.specs.Handles.{Spends, bay_of};

use super::handle::{Clones, Handle, Wakes};
use super::refused::Refused;
use cell::call::Act;
use cell::cell::Bay;
use cell::report::Report;
use polls::Future;
use rack::calls;
use schedule::Schedule;

// A Runnable whose future has been polled.
pub type Polled = Handle<ToFinish>;

// The kind of a Polled: finish is next.
pub enum ToFinish {}

impl Clones for ToFinish {}

impl Wakes for ToFinish {}

impl Polled {
    // Ends the run: the task completes, waits again, or rests.
    pub fn finish<F: Future, S: Schedule>(
        self,
        bays: &mut [Bay<F, F::Output>],
        policy: &mut S,
    ) -> Result<Report<F::Output>, Refused<Polled>>
        ensures { Spends self (λ r. r) (λ o. Stepped F.Future.step S.Schedule bays.old policy.old (At (bay_of self) (Act.Finish)) o bays.new policy.new) result }
    {
        let bay = self.bay();
        self.settle(calls::finish(bays, policy, bay))
    }
}

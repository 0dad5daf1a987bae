// A waker: wakes the task of its bay.
ghost use Rattle.cell.specs.declared.call.Call.TheVariants.{At};
ghost use Rattle.rack.specs.Racks.{Stepped};
ghost use Rattle.handles.specs.Handles.{Spends, bay_of};

use super::handle::{Clones, Handle, Wakes};
use super::refused::Refused;
use cell::call::Act;
use cell::cell::Bay;
use cell::report::Report;
use polls::Future;
use rack::calls;
use schedule::Schedule;

// A waker of the task in a bay.
pub type Waker = Handle<ToWake>;

// The kind of a Waker.
pub enum ToWake {}

impl Clones for ToWake {}

impl Wakes for ToWake {}

impl Waker {
    // Wakes, and is spent.
    pub fn wake<F: Future, S: Schedule>(
        self,
        bays: &mut [Bay<F, F::Output>],
        policy: &mut S,
    ) -> Result<Report<F::Output>, Refused<Waker>>
        ensures { Spends self (λ r. r) (λ o. Stepped F.Future.step S.Schedule bays.old policy.old (At (bay_of self) (Act.Wake)) o bays.new policy.new) result }
    {
        let bay = self.bay();
        self.settle(calls::wake(bays, policy, bay))
    }

    // Drops the waker.
    pub fn drop_waker<F: Future, S: Schedule>(
        self,
        bays: &mut [Bay<F, F::Output>],
        policy: &mut S,
    ) -> Result<Report<F::Output>, Refused<Waker>>
        ensures { Spends self (λ r. r) (λ o. Stepped F.Future.step S.Schedule bays.old policy.old (At (bay_of self) (Act.DropWaker)) o bays.new policy.new) result }
    {
        let bay = self.bay();
        self.settle(calls::drop_waker(bays, policy, bay))
    }
}

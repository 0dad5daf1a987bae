// The Task: asks for the output, and cancels.
ghost use Rattle.cell.specs.declared.call.Call.TheVariants.{At};
ghost use Rattle.rack.specs.Racks.{Stepped};
ghost use Rattle.handles.specs.Handles.{Spends, bay_of};

use super::handle::Handle;
use super::refused::Refused;
use cell::call::Act;
use cell::cell::Bay;
use cell::report::{Report, Said};
use polls::Future;
use rack::calls;
use schedule::Schedule;

// The Task of a bay, from its spawn on.
pub type Task = Handle<ToAsk>;

// The kind of a Task: it asks for the output.
pub enum ToAsk {}

impl Task {
    // Asks for the output; the waiter is told when there is reason to ask again.
    pub fn poll_task<F: Future, S: Schedule>(
        &self,
        bays: &mut [Bay<F, F::Output>],
        policy: &mut S,
        waiter: u32,
    ) -> Said<F::Output>
        ensures { Stepped F.Future.step S.Schedule bays.old policy.old (At (bay_of self.now) (Act.PollTask waiter)) result bays.new policy.new }
    {
        calls::poll_task(bays, policy, self.bay(), waiter)
    }

    // Closes the task.
    pub fn cancel<F: Future, S: Schedule>(
        &self,
        bays: &mut [Bay<F, F::Output>],
        policy: &mut S,
    ) -> Said<F::Output>
        ensures { Stepped F.Future.step S.Schedule bays.old policy.old (At (bay_of self.now) (Act.Cancel)) result bays.new policy.new }
    {
        calls::cancel(bays, policy, self.bay())
    }

    // Lets the Task go; the task runs on by itself.
    pub fn detach<F: Future, S: Schedule>(
        self,
        bays: &mut [Bay<F, F::Output>],
        policy: &mut S,
    ) -> Result<Report<F::Output>, Refused<Task>>
        ensures { Spends self (λ r. r) (λ o. Stepped F.Future.step S.Schedule bays.old policy.old (At (bay_of self) (Act.Detach)) o bays.new policy.new) result }
    {
        let bay = self.bay();
        self.settle(calls::detach(bays, policy, bay))
    }

    // Closes the task and lets the Task go.
    pub fn drop_task<F: Future, S: Schedule>(
        self,
        bays: &mut [Bay<F, F::Output>],
        policy: &mut S,
    ) -> Result<Report<F::Output>, Refused<Task>>
        ensures { Spends self (λ r. r) (λ o. Stepped F.Future.step S.Schedule bays.old policy.old (At (bay_of self) (Act.DropTask)) o bays.new policy.new) result }
    {
        let bay = self.bay();
        self.settle(calls::drop_task(bays, policy, bay))
    }
}

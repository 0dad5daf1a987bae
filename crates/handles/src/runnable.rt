// The Runnable: waits by schedule, and becomes a Running by begin.
ghost use Rattle.std.specs.Prelude.{option_map, if◌then◌else◌};
ghost use Rattle.cell.specs.declared.call.Call.TheVariants.{Spawn, Take, At};
ghost use Rattle.cell.specs.Events.{finds, is_begun};
ghost use Rattle.rack.specs.Racks.{Stepped};
ghost use Rattle.handles.specs.Handles.{unspent, Spends, Gives, bay_of};

use super::handle::{Clones, Handle};
use super::refused::Refused;
use super::running::Running;
use super::task::Task;
use cell::call::Act;
use cell::cell::Bay;
use cell::report::{Answer, Fault, Report};
use polls::Future;
use rack::calls;
use schedule::Schedule;

// A Runnable in hand.
pub type Runnable = Handle<ToBegin>;

// The kind of a Runnable: schedule or begin is next.
pub enum ToBegin {}

impl Clones for ToBegin {}

// A future becomes a task in a vacant bay: its Runnable is in hand, its Task out.
pub fn spawn<F: Future, S: Schedule>(
    bays: &mut [Bay<F, F::Output>],
    policy: &mut S,
    bay: u32,
    future: F,
) -> Result<(Runnable, Task), Fault>
    ensures { Gives (λ _. (unspent bay, unspent bay)) (λ o. Stepped F.Future.step S.Schedule bays.old policy.old (Spawn bay future) o bays.new policy.new) result }
{
    calls::spawn(bays, policy, bay, future)?;
    Ok((Runnable::new(bay), Task::new(bay)))
}

// The Runnable of the policy's first entry, if one waits.
pub fn take<F: Future, S: Schedule>(
    bays: &mut [Bay<F, F::Output>],
    policy: &mut S,
) -> Result<(Option<Runnable>, Report<F::Output>), Fault>
    ensures { Gives (λ r. (option_map unspent (finds r.answer), r)) (λ o. Stepped F.Future.step S.Schedule bays.old policy.old Take o bays.new policy.new) result }
{
    let report = calls::take(bays, policy)?;
    let found = match report.answer {
        Answer::Found(bay) => Some(Runnable::new(bay)),
        _ => None,
    };
    Ok((found, report))
}

impl Runnable {
    // Puts the Runnable.
    pub fn schedule<F: Future, S: Schedule>(
        self,
        bays: &mut [Bay<F, F::Output>],
        policy: &mut S,
    ) -> Result<Report<F::Output>, Refused<Runnable>>
        ensures { Spends self (λ r. r) (λ o. Stepped F.Future.step S.Schedule bays.old policy.old (At (bay_of self) (Act.Schedule)) o bays.new policy.new) result }
    {
        let bay = self.bay();
        self.settle(calls::schedule(bays, policy, bay))
    }

    // Begins to run; or ends if the task is closed, with its future dropped and no Running.
    pub fn begin<F: Future, S: Schedule>(
        self,
        bays: &mut [Bay<F, F::Output>],
        policy: &mut S,
    ) -> Result<(Option<Running>, Report<F::Output>), Refused<Runnable>>
        ensures { Spends self (λ r. ((if is_begun r.answer then Some (unspent (bay_of self)) else None), r)) (λ o. Stepped F.Future.step S.Schedule bays.old policy.old (At (bay_of self) (Act.Begin)) o bays.new policy.new) result }
    {
        let bay = self.bay();
        let report = self.settle(calls::begin(bays, policy, bay))?;
        if let Answer::Begun = report.answer {
            return Ok((Some(Running::new(bay)), report));
        }
        Ok((None, report))
    }

    // Closes the task and drops its future.
    pub fn drop_runnable<F: Future, S: Schedule>(
        self,
        bays: &mut [Bay<F, F::Output>],
        policy: &mut S,
    ) -> Result<Report<F::Output>, Refused<Runnable>>
        ensures { Spends self (λ r. r) (λ o. Stepped F.Future.step S.Schedule bays.old policy.old (At (bay_of self) (Act.DropRunnable)) o bays.new policy.new) result }
    {
        let bay = self.bay();
        self.settle(calls::drop_runnable(bays, policy, bay))
    }
}

// The calls by number. Each is passed the bays and the policy, and gives a report or a refusal.
// They are passed side by side, not as one struct: the caller has both, and may use either between two calls.
// Each call is a function of its own, by its name in the rules; `act_at` has what they share. A bay that was found is
// written by its number, since a `&mut` to it would need a clause on the bays once it is given back.
ghost use Rattle.std.specs.Prelude.{◌≡◌, ◌<◌, length, Ok, OnOk, IfSome};
ghost use Rattle.cell.specs.declared.call.Call.TheVariants.{Spawn, Take, At};
ghost use Rattle.rack.specs.Racks.{counted, located, waiting_at, settled, Became, Stepped};

use cell::act::Move;
use cell::call::{Act, Call};
use cell::cell::{Bay, Cell};
use cell::report::{Answer, Fault, Report, Said};
use polls::Future;
use schedule::Schedule;

// How many bays there are: a rack has 1 to 64.
pub(crate) fn counted<T>(bays: &[T]) -> Result<usize, Fault>
    ensures { result ≡ counted (length bays.now) }
{
    if bays.is_empty() || bays.len() > 64 {
        return Err(Fault::BayCount);
    }
    Ok(bays.len())
}

// What is in the bay of a number.
fn find<F: Copy, O: Copy>(bays: &[Bay<F, O>], bay: u32) -> Result<Bay<F, O>, Fault>
    ensures value { result ≡ located bays.now bay }
    ensures within { OnOk result (bay < length bays.now) }
{
    counted(bays)?;
    bays.get(bay as usize).copied().ok_or(Fault::NoSuchBay)
}

// Puts the bay's number if the move says so, and writes what becomes of the bay.
fn settle<F: Future, S: Schedule>(
    bays: &mut [Bay<F, F::Output>],
    policy: &mut S,
    bay: u32,
    moved: Move<F, F::Output>,
) -> Said<F::Output>
    requires { bay < length bays.old }
    ensures { Became S.Schedule policy.old (settled (S.Schedule.entries policy.old) (S.Schedule.places policy.old) bays.old bay (Ok moved)) result bays.new policy.new }
{
    let Move { bay: left, report } = moved;
    if let Some(mark) = report.put {
        if !policy.put(bay, mark) {
            return Err(Fault::PutRefused);
        }
    }
    bays[bay as usize] = left;
    Ok(report)
}

// Any call but spawn and take: on the cell of an occupied bay.
fn act_at<F: Future, S: Schedule>(
    bays: &mut [Bay<F, F::Output>],
    policy: &mut S,
    bay: u32,
    act: Act,
) -> Said<F::Output>
    ensures { Stepped F.Future.step S.Schedule bays.old policy.old (At bay act) result bays.new policy.new }
{
    let cell = find(bays, bay)?.ok_or(Fault::Vacant)?;
    let moved = cell.act(act)?;
    settle(bays, policy, bay, moved)
}

// A future becomes a task in a vacant bay.
pub fn spawn<F: Future, S: Schedule>(
    bays: &mut [Bay<F, F::Output>],
    _policy: &mut S,
    bay: u32,
    future: F,
) -> Said<F::Output>
    ensures { Stepped F.Future.step S.Schedule bays.old _policy.old (Spawn bay future) result bays.new _policy.new }
{
    let None = find(bays, bay)? else {
        return Err(Fault::Occupied);
    };
    bays[bay as usize] = Some(Cell::spawn(future));
    Ok(Report::of(Answer::Done))
}

// The cell of a bay with its Runnable in hand, if the bay is there and its Runnable waits.
fn waiting<F: Future>(bays: &[Bay<F, F::Output>], bay: u32) -> Option<Cell<F, F::Output>>
    ensures value { result ≡ waiting_at bays.now bay }
    ensures within { IfSome result (λ _. bay < length bays.now) }
{
    let cell = (*bays.get(bay as usize)?)?;
    cell.take()
}

// The Runnable of the policy's first entry comes to hand.
pub fn take<F: Future, S: Schedule>(
    bays: &mut [Bay<F, F::Output>],
    policy: &mut S,
) -> Said<F::Output>
    ensures { Stepped F.Future.step S.Schedule bays.old policy.old Take result bays.new policy.new }
{
    counted(bays)?;
    let Some(bay) = policy.peek() else {
        return Ok(Report::of(Answer::Nothing));
    };
    // not by `ok_or`, which does not carry that the bay is one of the rack's
    let Some(cell) = waiting(bays, bay) else {
        return Err(Fault::StrayEntry);
    };
    let _ = policy.take();
    bays[bay as usize] = Some(cell);
    Ok(Report::of(Answer::Found(bay)))
}

// Puts a Runnable that is in hand.
pub fn schedule<F: Future, S: Schedule>(
    bays: &mut [Bay<F, F::Output>],
    policy: &mut S,
    bay: u32,
) -> Said<F::Output>
    ensures { Stepped F.Future.step S.Schedule bays.old policy.old (At bay (Act.Schedule)) result bays.new policy.new }
{
    act_at(bays, policy, bay, Act::Schedule)
}

// Begins a Runnable that is in hand, or ends it if its task is closed.
pub fn begin<F: Future, S: Schedule>(
    bays: &mut [Bay<F, F::Output>],
    policy: &mut S,
    bay: u32,
) -> Said<F::Output>
    ensures { Stepped F.Future.step S.Schedule bays.old policy.old (At bay (Act.Begin)) result bays.new policy.new }
{
    act_at(bays, policy, bay, Act::Begin)
}

// Polls the future of a Runnable that has begun.
pub fn poll<F: Future, S: Schedule>(
    bays: &mut [Bay<F, F::Output>],
    policy: &mut S,
    bay: u32,
    word: u32,
) -> Said<F::Output>
    ensures { Stepped F.Future.step S.Schedule bays.old policy.old (At bay (Act.Poll word)) result bays.new policy.new }
{
    act_at(bays, policy, bay, Act::Poll(word))
}

// Ends the run of a Runnable that has polled.
pub fn finish<F: Future, S: Schedule>(
    bays: &mut [Bay<F, F::Output>],
    policy: &mut S,
    bay: u32,
) -> Said<F::Output>
    ensures { Stepped F.Future.step S.Schedule bays.old policy.old (At bay (Act.Finish)) result bays.new policy.new }
{
    act_at(bays, policy, bay, Act::Finish)
}

// Drops a Runnable that is in hand: its task is closed, and its future dropped.
pub fn drop_runnable<F: Future, S: Schedule>(
    bays: &mut [Bay<F, F::Output>],
    policy: &mut S,
    bay: u32,
) -> Said<F::Output>
    ensures { Stepped F.Future.step S.Schedule bays.old policy.old (At bay (Act.DropRunnable)) result bays.new policy.new }
{
    act_at(bays, policy, bay, Act::DropRunnable)
}

// One waker more.
pub fn clone<F: Future, S: Schedule>(
    bays: &mut [Bay<F, F::Output>],
    policy: &mut S,
    bay: u32,
) -> Said<F::Output>
    ensures { Stepped F.Future.step S.Schedule bays.old policy.old (At bay (Act.Clone)) result bays.new policy.new }
{
    act_at(bays, policy, bay, Act::Clone)
}

// Wakes by a waker that stays.
pub fn wake_by_ref<F: Future, S: Schedule>(
    bays: &mut [Bay<F, F::Output>],
    policy: &mut S,
    bay: u32,
) -> Said<F::Output>
    ensures { Stepped F.Future.step S.Schedule bays.old policy.old (At bay (Act.WakeByRef)) result bays.new policy.new }
{
    act_at(bays, policy, bay, Act::WakeByRef)
}

// Wakes by a waker, which is spent.
pub fn wake<F: Future, S: Schedule>(
    bays: &mut [Bay<F, F::Output>],
    policy: &mut S,
    bay: u32,
) -> Said<F::Output>
    ensures { Stepped F.Future.step S.Schedule bays.old policy.old (At bay (Act.Wake)) result bays.new policy.new }
{
    act_at(bays, policy, bay, Act::Wake)
}

// Drops a waker.
pub fn drop_waker<F: Future, S: Schedule>(
    bays: &mut [Bay<F, F::Output>],
    policy: &mut S,
    bay: u32,
) -> Said<F::Output>
    ensures { Stepped F.Future.step S.Schedule bays.old policy.old (At bay (Act.DropWaker)) result bays.new policy.new }
{
    act_at(bays, policy, bay, Act::DropWaker)
}

// Asks for the output; the waiter is told when there is reason to ask again.
pub fn poll_task<F: Future, S: Schedule>(
    bays: &mut [Bay<F, F::Output>],
    policy: &mut S,
    bay: u32,
    waiter: u32,
) -> Said<F::Output>
    ensures { Stepped F.Future.step S.Schedule bays.old policy.old (At bay (Act.PollTask waiter)) result bays.new policy.new }
{
    act_at(bays, policy, bay, Act::PollTask(waiter))
}

// Closes a task.
pub fn cancel<F: Future, S: Schedule>(
    bays: &mut [Bay<F, F::Output>],
    policy: &mut S,
    bay: u32,
) -> Said<F::Output>
    ensures { Stepped F.Future.step S.Schedule bays.old policy.old (At bay (Act.Cancel)) result bays.new policy.new }
{
    act_at(bays, policy, bay, Act::Cancel)
}

// Lets the Task go; the task runs on by itself.
pub fn detach<F: Future, S: Schedule>(
    bays: &mut [Bay<F, F::Output>],
    policy: &mut S,
    bay: u32,
) -> Said<F::Output>
    ensures { Stepped F.Future.step S.Schedule bays.old policy.old (At bay (Act.Detach)) result bays.new policy.new }
{
    act_at(bays, policy, bay, Act::Detach)
}

// Closes a task and lets its Task go.
pub fn drop_task<F: Future, S: Schedule>(
    bays: &mut [Bay<F, F::Output>],
    policy: &mut S,
    bay: u32,
) -> Said<F::Output>
    ensures { Stepped F.Future.step S.Schedule bays.old policy.old (At bay (Act.DropTask)) result bays.new policy.new }
{
    act_at(bays, policy, bay, Act::DropTask)
}

// One call. It comes in a list of calls, so it is a case and no closure.
pub fn call<F: Future, S: Schedule>(
    bays: &mut [Bay<F, F::Output>],
    policy: &mut S,
    call: Call<F>,
) -> Said<F::Output>
    ensures { Stepped F.Future.step S.Schedule bays.old policy.old call result bays.new policy.new }
{
    match call {
        Call::Spawn { bay, future } => spawn(bays, policy, bay, future),
        Call::Take => take(bays, policy),
        Call::At { bay, act } => act_at(bays, policy, bay, act),
    }
}

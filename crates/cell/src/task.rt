// What the calls of a Task do.
ghost use Rattle.std.specs.Prelude.{◌≡◌};
ghost use Rattle.cell.specs.Steps.{displaced as displacing, notified, poll_task_step, cancel_step, detach_step, drop_task_step};

use super::header::Header;
use super::raw::{Content, Outcome, RawTask};
use super::report::{Answer, Fate, Report};
use word::state::{AWAITER, CLOSED, COMPLETED, REFERENCE, RUNNING, SCHEDULED, State, TASK};

// The waiter that is told when another asks in its place.
fn displaced(header: Header, waiter: u32) -> Option<u32>
    ensures { result ≡ displacing header waiter }
{
    let told = header.state.has(AWAITER);
    header.awaiter.filter(|old| told && *old != waiter)
}

impl<F: Copy, O: Copy> RawTask<F, O> {
    // Asks for the output. Where there is none yet, the waiter will be told.
    pub(crate) fn poll_task(self, waiter: u32) -> Outcome<F, O>
        ensures { result ≡ poll_task_step waiter self }
    {
        let state = self.state();
        let runnable = state.has(RUNNING) || state.has(SCHEDULED);
        if state.is_open() || state.has(CLOSED) && runnable {
            let header = Header {
                state: state.with(AWAITER),
                awaiter: Some(waiter),
            };
            return RawTask { header, ..self }.says(Answer::Pending);
        }
        let woken = displaced(self.header, waiter);
        let state = state.without(AWAITER);
        let header = Header {
            state: state.with(CLOSED),
            awaiter: None,
        };
        let answer = match self.content {
            Content::Output(output) if !state.has(CLOSED) => Answer::Delivered(output),
            _ => Answer::Nothing,
        };
        Outcome {
            task: RawTask {
                header,
                content: Content::Empty,
            },
            report: Report {
                woken,
                ..Report::of(answer)
            },
        }
    }

    // Tells the waiter.
    fn notify(self, put: Option<bool>) -> Outcome<F, O>
        ensures { result ≡ notified self put }
    {
        let mut header = self.header;
        let woken = header.take();
        Outcome {
            task: RawTask { header, ..self },
            report: Report {
                put,
                woken,
                ..Report::of(Answer::Done)
            },
        }
    }

    // Closes an open task. One whose Runnable is gone is scheduled, so that its future is dropped.
    pub(crate) fn set_canceled(self) -> Outcome<F, O>
        ensures { result ≡ cancel_step self }
    {
        let before = self.state();
        if !before.is_open() {
            return self.says(Answer::Done);
        }
        let closed = before.with(CLOSED);
        if before.has(RUNNING) || before.has(SCHEDULED) {
            return self.with_state(closed).notify(None);
        }
        self.with_state(closed.with(SCHEDULED).more())
            .notify(Some(false))
    }

    // Lets the Task go; the task runs on by itself.
    pub(crate) fn set_detached(self) -> Outcome<F, O>
        ensures { result ≡ detach_step self }
    {
        let before = self.state();
        // the commonest case: the task was just spawned; compared by its number, as the flags are numbers
        if u32::from(before) == SCHEDULED | TASK | REFERENCE {
            return self
                .with_state(State::from(SCHEDULED | REFERENCE))
                .says(Answer::Done);
        }
        let unclaimed = before.has(COMPLETED) && !before.has(CLOSED);
        let (task, fate) = if unclaimed {
            let closed = self.with_state(before.with(CLOSED));
            (closed.emptied(), Fate::OutputDropped)
        } else {
            (self, Fate::Kept)
        };
        let state = task.state();
        if !state.has(CLOSED) && state.count() == 0 {
            return task.run_out();
        }
        Outcome {
            task: task.with_state(state.without(TASK)),
            report: Report {
                fate,
                cleared: state.count() == 0,
                ..Report::of(Answer::Done)
            },
        }
    }

    pub(crate) fn drop_task(self) -> Outcome<F, O>
        ensures { result ≡ drop_task_step self }
    {
        self.set_canceled().and_then(|task| task.set_detached())
    }
}

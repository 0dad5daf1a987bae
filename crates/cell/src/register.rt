// Which handles of a cell are out.
ghost use Rattle.std.specs.Prelude.{◌≡◌};
ghost use Rattle.cell.specs.Numbers.{stage_number};
ghost use Rattle.cell.specs.Registers.{advanced};

use super::call::Kind;

// Where a cell's Runnable is.
#[derive(Clone, Copy, PartialEq, Eq)]
pub enum Stage {
    // there is none
    Gone = 0,
    InHand = 1,
    // an entry of the policy
    Waiting = 2,
    // it has begun, and its future is to be polled
    Begun = 3,
    // its future has been polled
    Polled = 4,
}

// The stage of the Runnable, whether the Task is out, and how many wakers are.
#[derive(Clone, Copy)]
pub struct Register {
    pub stage: Stage,
    pub task: bool,
    pub wakers: u32,
}

impl Stage {
    // Its number in the rules; the discriminants are these numbers.
    pub fn number(self) -> u8
        ensures { result ≡ stage_number self }
    {
        self as u8
    }
}

impl Register {
    // Moves by the stage and the call together. `put`: the call put the Runnable; `ended`: its begin came to an end.
    pub fn advance(&mut self, call: Kind, put: bool, ended: bool)
        ensures { self.new ≡ advanced self.old call put ended }
    {
        match (self.stage, call) {
            (Stage::Gone, Kind::Spawn) => {
                self.stage = Stage::InHand;
                self.task = true;
                self.wakers = 0;
            }
            (Stage::InHand, Kind::Schedule) => self.stage = Stage::Waiting,
            (Stage::Waiting, Kind::Take) => self.stage = Stage::InHand,
            (Stage::InHand, Kind::Begin) => {
                self.stage = if ended { Stage::Gone } else { Stage::Begun };
            }
            (Stage::Begun, Kind::Poll) => self.stage = Stage::Polled,
            (Stage::Polled, Kind::Finish) => {
                self.stage = if put { Stage::Waiting } else { Stage::Gone };
            }
            (Stage::InHand, Kind::DropRunnable) => self.stage = Stage::Gone,
            (_, Kind::Clone) => self.wakers = self.wakers.saturating_add(1),
            (Stage::Gone, Kind::WakeByRef | Kind::Cancel) => {
                if put {
                    self.stage = Stage::Waiting;
                }
            }
            (Stage::Gone, Kind::Wake | Kind::DropWaker) => {
                self.wakers = self.wakers.saturating_sub(1);
                if put {
                    self.stage = Stage::Waiting;
                }
            }
            (_, Kind::Wake | Kind::DropWaker) => self.wakers = self.wakers.saturating_sub(1),
            (Stage::Gone, Kind::Detach | Kind::DropTask) => {
                self.task = false;
                if put {
                    self.stage = Stage::Waiting;
                }
            }
            (_, Kind::Detach | Kind::DropTask) => self.task = false,
            _ => {}
        }
    }
}

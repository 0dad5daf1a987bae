// The fifteen calls.
ghost use Rattle.std.specs.Prelude.{◌≡◌};
ghost use Rattle.cell.specs.Table.{kind_code, act_kind};

// Which of the fifteen.
#[derive(Clone, Copy)]
pub enum Kind {
    Spawn = 1,
    Schedule = 2,
    Take = 3,
    Begin = 4,
    Poll = 5,
    Finish = 6,
    DropRunnable = 7,
    Clone = 8,
    WakeByRef = 9,
    Wake = 10,
    DropWaker = 11,
    PollTask = 12,
    Cancel = 13,
    Detach = 14,
    DropTask = 15,
}

// What may be asked of the cell of a bay.
#[derive(Clone, Copy)]
pub enum Act {
    Schedule,
    Begin,
    // with a word for the future
    Poll(u32),
    Finish,
    DropRunnable,
    Clone,
    WakeByRef,
    Wake,
    DropWaker,
    // with the number of the waiter
    PollTask(u32),
    Cancel,
    Detach,
    DropTask,
}

// A call with its arguments.
#[derive(Clone, Copy)]
pub enum Call<F> {
    Spawn { bay: u32, future: F },
    Take,
    At { bay: u32, act: Act },
}

impl Kind {
    // The code of a call in scripts; the discriminants are the codes.
    pub fn code(self) -> u8
        ensures { result ≡ kind_code self }
    {
        self as u8
    }
}

// What a call on a cell is, without its arguments.
impl From<Act> for Kind {
    ghost from_gives = { λ act kind. kind ≡ act_kind act };

    fn from(act: Act) -> Kind {
        match act {
            Act::Schedule => Kind::Schedule,
            Act::Begin => Kind::Begin,
            Act::Poll(_) => Kind::Poll,
            Act::Finish => Kind::Finish,
            Act::DropRunnable => Kind::DropRunnable,
            Act::Clone => Kind::Clone,
            Act::WakeByRef => Kind::WakeByRef,
            Act::Wake => Kind::Wake,
            Act::DropWaker => Kind::DropWaker,
            Act::PollTask(_) => Kind::PollTask,
            Act::Cancel => Kind::Cancel,
            Act::Detach => Kind::Detach,
            Act::DropTask => Kind::DropTask,
        }
    }
}

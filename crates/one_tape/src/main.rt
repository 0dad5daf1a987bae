// Follows tape 2210 from the delivery desk to its recording.
#![tactic(auto)]

use jobs::{Future, Job, Played, Poll, Recording, Transfer};
use queues::Queue;
use schedule::{Answer, Request, Schedule, Unserved};

// A tape as the delivery desk takes it in.
#[derive(Clone, Copy)]
struct Tape {
    number: u32,
    seconds: u32,
}

// The tapes taken in; each has the bay of its place here.
const TAPES: [Tape; 3] = [
    Tape {
        number: 2207,
        seconds: 900,
    },
    Tape {
        number: 2210,
        seconds: 2700,
    },
    Tape {
        number: 2214,
        seconds: 1800,
    },
];

// Every tape joins the queue, and the machine takes two.
const DAY: [Request; 5] = [
    Request::Put {
        bay: 0,
        woken_while_running: false,
    },
    Request::Put {
        bay: 1,
        woken_while_running: false,
    },
    Request::Put {
        bay: 2,
        woken_while_running: false,
    },
    Request::Take,
    Request::Take,
];

// How long the machine plays at a time, in seconds.
const STRETCHES: [u32; 4] = [1000, 1000, 1000, 1000];

fn take_in(rt: &HostRuntime) -> anyhow::Result<()> {
    println!(rt; "At the delivery desk")?;
    for (bay, Tape { number, seconds }) in TAPES.iter().enumerate() {
        println!(rt; "  Tape {number} becomes a transfer job of {seconds} seconds, in bay {bay}.")?;
    }
    Ok(())
}

fn foretell(rt: &HostRuntime, goal: u32) -> anyhow::Result<()> {
    let Played { pending, output } = Transfer::play(goal, &STRETCHES);
    match output {
        Some(_) => {
            let last = pending.saturating_add(1);
            println!(rt; "  By its length it will be through with stretch {last}.")?;
        }
        None => println!(rt; "  By its length these stretches will not do.")?,
    }
    Ok(())
}

fn play(rt: &HostRuntime, tape: &Tape) -> anyhow::Result<()> {
    let Tape {
        number,
        seconds: goal,
    } = *tape;
    println!(rt; "On the machine: tape {number}")?;
    foretell(rt, goal)?;
    let mut transfer = Transfer::start(goal);
    for stretch in STRETCHES {
        match transfer.poll(stretch) {
            Poll::Pending => {
                let Transfer { seconds, polls, .. } = transfer;
                println!(rt;
                    "  Stretch {polls}: {seconds} of {goal} seconds played. There is more to play."
                )?;
            }
            Poll::Ready(Recording { seconds, polls }) => {
                println!(rt;
                    "  Stretch {polls}: {seconds} of {goal} seconds played. The tape is through."
                )?;
                println!(rt;
                    "  Tape {number} is ready. Its recording: {seconds} seconds, polls: {polls}."
                )?;
                return Ok(());
            }
        }
    }
    println!(rt; "  Tape {number} is not through yet.")?;
    Ok(())
}

fn tell(rt: &HostRuntime, answers: &[Answer]) -> anyhow::Result<()> {
    for (request, answer) in DAY.iter().zip(answers) {
        match (*request, *answer) {
            (Request::Put { bay, .. }, Answer::Accepted(true)) => {
                println!(rt; "  Bay {bay} joins the queue for the machine.")?
            }
            (Request::Put { bay, .. }, _) => println!(rt; "  Bay {bay} cannot join the queue.")?,
            (Request::Take, Answer::Gave(bay)) => {
                println!(rt; "The machine takes bay {bay}, which has waited longest.")?;
                if let Some(tape) = TAPES.get(bay as usize) {
                    play(rt, tape)?;
                }
            }
            (Request::Take, _) => println!(rt; "No bay waits.")?,
        }
    }
    Ok(())
}

fn main(rt: HostRuntime) -> anyhow::Result<()> {
    take_in(&rt)?;
    let mut queue = Queue::new(rt.alloc(), TAPES.len())?;
    let mut answers = Vec::with_capacity(rt.alloc(), DAY.len())?;
    println!(rt; "In the queue")?;
    match queue.serve(&DAY, &mut answers) {
        Ok(()) => tell(&rt, &answers)?,
        // said here and nowhere else, in this program's words
        Err(Unserved::NotEmpty) => println!(rt; "  The queue was in use.")?,
        Err(Unserved::NoRoom) => println!(rt; "  There was no room for the answers.")?,
    }
    let waiting = queue.len();
    println!(rt; "Bays still in the queue: {waiting}")?;
    Ok(())
}

// Lists of puts and takes.
ghost use Rattle.std.specs.Prelude.{vec_capacity, OnOk};
ghost use Rattle.schedule.specs.Requests.{Obeys, Serves, Refuses};

use super::Schedule;

// What a policy can be asked to change.
#[derive(Clone, Copy)]
pub enum Request {
    Put { bay: u32, woken_while_running: bool },
    Take,
}

// What it answered: to a put, whether it accepted the bay; to a take, the bay that it gave, or that it was empty. The
// last two are no Option: an enum within an enum has a tag of its own, and an answer would take half as much memory again.
#[derive(Clone, Copy)]
pub enum Answer {
    Accepted(bool),
    Gave(u32),
    Empty,
}

// Why no request of a list was carried out.
#[derive(Clone, Copy)]
pub enum Unserved {
    NotEmpty,
    NoRoom,
}

// A request comes in a list, so it is a case and no closure.
fn obey<S: Schedule>(policy: &mut S, request: Request) -> Answer
    ensures { Obeys S.Schedule policy.old request result policy.new }
{
    match request {
        Request::Put {
            bay,
            woken_while_running,
        } => Answer::Accepted(policy.put(bay, woken_while_running)),
        Request::Take => match policy.take() {
            Some(bay) => Answer::Gave(bay),
            None => Answer::Empty,
        },
    }
}

// Carries out a list of requests on a policy that has no entry. The answers take the place of what `answers`
// holds; its capacity has to do for them, so that a list is carried out whole or not at all.
pub fn serve<S: Schedule>(
    policy: &mut S,
    requests: &[Request],
    answers: &mut Vec<Answer>,
) -> Result<(), Unserved>
    ensures served { OnOk result (Serves S.Schedule policy.old requests.now answers.new.items policy.new) }
    ensures refused { Refuses S.Schedule requests.now (vec_capacity answers.old) policy.old answers.old result policy.new answers.new }
{
    if policy.peek().is_some() {
        return Err(Unserved::NotEmpty);
    }
    if answers.capacity() < requests.len() {
        return Err(Unserved::NoRoom);
    }
    answers.clear();
    for request in requests {
        answers.push_reserved(obey(policy, *request));
    }
    Ok(())
}

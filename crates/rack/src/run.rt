// Opening a rack, and whole lists of calls.
ghost use Rattle.std.specs.Prelude.{◌≡◌, length, vec_capacity, OnOk};
ghost use Rattle.rack.specs.Racks.{unfit, Opens};
ghost use Rattle.rack.specs.declared.run.Unserved.TheVariants.{Refused};
ghost use Rattle.rack.specs.Runs.{Serves, unserved, Refuses};

use super::calls::{call, counted};
use cell::call::Call;
use cell::cell::Bay;
use cell::report::{Fault, Said};
use polls::Future;
use schedule::Schedule;

// Why no call of a list was carried out.
#[derive(Clone, Copy)]
pub enum Unserved {
    // the opening was refused
    Refused(Fault),
    // the vector has not the capacity for the reports
    NoRoom,
}

impl From<Fault> for Unserved {
    ghost from_gives = { λ fault why. why ≡ Refused fault };

    fn from(fault: Fault) -> Unserved {
        Unserved::Refused(fault)
    }
}

// Makes every bay vacant, and answers how many there are.
pub fn open<F: Copy, O: Copy, S: Schedule>(bays: &mut [Bay<F, O>], policy: &S) -> Result<u32, Fault>
    ensures { Opens bays.old (unfit (length bays.old) (S.Schedule.entries policy.now) (S.Schedule.places policy.now)) result bays.new }
{
    let count = counted(bays)?;
    if policy.peek().is_some() || policy.places() < count {
        return Err(Fault::PolicyUnfit);
    }
    bays.fill(None);
    Ok(count as u32)
}

// Opens the rack and carries out the calls, one after another. Their reports take the place of what `reports` holds;
// its capacity has to do for them, so that a list is carried out whole or not at all. (`serve` of schedule does so for requests;
// a function over both would be longer than the two.)
pub fn run<F: Future, S: Schedule>(
    bays: &mut [Bay<F, F::Output>],
    policy: &mut S,
    calls: &[Call<F>],
    reports: &mut Vec<Said<F::Output>>,
) -> Result<(), Unserved>
    ensures served { OnOk result (Serves F.Future.step S.Schedule bays.old policy.old calls.now reports.new.items bays.new policy.new) }
    ensures refused { Refuses (unserved (length calls.now) (vec_capacity reports.old) (unfit (length bays.old) (S.Schedule.entries policy.old) (S.Schedule.places policy.old))) result bays.old bays.new policy.old policy.new reports.old reports.new }
{
    if reports.capacity() < calls.len() {
        return Err(Unserved::NoRoom);
    }
    open(bays, policy)?;
    reports.clear();
    for c in calls {
        reports.push_reserved(call(bays, policy, *c));
    }
    Ok(())
}

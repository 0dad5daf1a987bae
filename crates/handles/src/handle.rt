// The handle: a bay number that has to be spent. Its kind says which calls it has.
ghost use Rattle.std.specs.Prelude.{◌≡◌, true, MatchResult};
ghost use Rattle.cell.specs.declared.call.Call.TheVariants.{At};
ghost use Rattle.rack.specs.Racks.{Stepped};
ghost use Rattle.handles.specs.Handles.{unspent, Gives, bay_of, is_spent};

use super::refused::Refused;
use super::waker::Waker;
use cell::call::Act;
use cell::cell::Bay;
use cell::report::{Fault, Said};
use polls::Future;
use rack::calls;
use schedule::Schedule;
use std::marker::PhantomData;

// A handle of the kind K. A kind has no values: it is there to say which calls the handle has.
// There is no Model: clauses read both the bay and whether it is spent, which a Model could only rename.
// `spent` is a field, since a handle may be let go, though only when it is spent: a rule of the handles.
pub struct Handle<K> {
    bay: u32,
    spent: bool,
    kind: PhantomData<K>,
}

// The kinds whose handles give a waker more.
pub trait Clones {}

// The kinds whose handles wake their task and stay.
pub trait Wakes {}

impl<K> Drop for Handle<K> {
    // A handle may be let go only when it is spent.
    fn drop(self)
        requires { is_spent self ≡ true }
    {
        let Handle {
            bay: _,
            spent: _,
            kind: _,
        } = self;
    }
}

impl<K> Handle<K> {
    pub(crate) fn new(bay: u32) -> Self
        ensures { result ≡ unspent bay }
    {
        Handle {
            bay,
            spent: false,
            kind: PhantomData,
        }
    }

    // The number of its bay.
    pub fn bay(&self) -> u32
        ensures { result ≡ bay_of self.now }
    {
        self.bay
    }

    // Spends the handle with no call: the rack still counts it as out.
    pub fn forget(mut self) {
        self.spent = true;
    }

    // Every call that spends a handle ends here: a report spends it, a fault gives it back as it is.
    // The bay is read in a line before, since self is moved before the arguments are read. It is no `map_err`, which
    // could not spend the handle of an Ok. The calls that end here differ in the call alone, each a method by its name.
    pub(crate) fn settle<T>(self, said: Result<T, Fault>) -> Result<T, Refused<Self>>
        ensures { MatchResult said (λ x. result ≡ Ok x) (λ e. result ≡ Err (record { fault = e; handle = self })) }
    {
        match said {
            Ok(report) => {
                self.forget();
                Ok(report)
            }
            Err(fault) => Err(Refused {
                fault,
                handle: self,
            }),
        }
    }
}

impl<K: Clones> Handle<K> {
    // One waker more for its bay.
    pub fn clone_waker<F: Future, S: Schedule>(
        &self,
        bays: &mut [Bay<F, F::Output>],
        policy: &mut S,
    ) -> Result<Waker, Fault>
        ensures { Gives (λ _. unspent (bay_of self.now)) (λ o. Stepped F.Future.step S.Schedule bays.old policy.old (At (bay_of self.now) (Act.Clone)) o bays.new policy.new) result }
    {
        calls::clone(bays, policy, self.bay)?;
        Ok(Waker::new(self.bay))
    }
}

impl<K: Wakes> Handle<K> {
    // Wakes the task, and stays.
    pub fn wake_by_ref<F: Future, S: Schedule>(
        &self,
        bays: &mut [Bay<F, F::Output>],
        policy: &mut S,
    ) -> Said<F::Output>
        ensures { Stepped F.Future.step S.Schedule bays.old policy.old (At (bay_of self.now) (Act.WakeByRef)) result bays.new policy.new }
    {
        calls::wake_by_ref(bays, policy, self.bay)
    }
}

// Scheduling policies: which waiting bay is next.
#![tactic(auto)]

ghost use Rattle.std.specs.Prelude.{◌≡◌, ℕ, ◌≤◌, Bool, true, false, List, [], ◌∷◌, length, drop, if◌then◌else◌};
ghost use Rattle.std.specs.List.Sorted.{IsPermutation};
ghost use Rattle.schedule.specs.Entries.{is_in, distinct, below_64, first, accepts, told};

pub mod requests;

pub use requests::{Answer, Request, Unserved, serve};

// A policy over bay numbers below 64, of which each waits at most once.
pub trait Schedule {
    // the bays that wait, in the order in which takes will give them if nothing is put
    ghost entries: { Self → List ℕ };

    // how many entries there may be
    ghost places: { Self → ℕ };

    // the entries after an accepted put of a bay with a mark: the order is the policy's own
    ghost after: { Self → ℕ → Bool → List ℕ };

    // the policy's parts agree with each other, as each kind defines
    ghost agrees: { Self → Type 0 };

    // Adds a bay, or answers false and changes nothing.
    // `woken_while_running`: the bay's task was woken while it was polled.
    fn put(&mut self, bay: u32, woken_while_running: bool) -> bool
        ensures agrees { agrees self.old → agrees self.new }
        ensures value { result ≡ accepts bay (entries self.old) (places self.old) }
        ensures items { entries self.new ≡ (if accepts bay (entries self.old) (places self.old) then after self.old bay woken_while_running else entries self.old) }
        ensures room { places self.new ≡ places self.old }
        ensures same { accepts bay (entries self.old) (places self.old) ≡ false → self.new ≡ self.old };

    // The bay that the next take will give.
    fn peek(&self) -> Option<u32>
        ensures { result ≡ first (entries self.now) };

    // Removes the first entry and answers it.
    fn take(&mut self) -> Option<u32>
        ensures agrees { agrees self.old → agrees self.new }
        ensures value { result ≡ first (entries self.old) }
        ensures items { entries self.new ≡ drop 1 (entries self.old) }
        ensures room { places self.new ≡ places self.old };

    fn places(&self) -> usize
        ensures { result ≡ places self.now };

    // The number of entries.
    fn len(&self) -> usize
        ensures { result ≡ told (length (entries self.now)) };

    // Whether the bay is an entry.
    fn holds(&self, bay: u32) -> bool
        ensures { result ≡ is_in bay (entries self.now) };

    // Whether a put of the bay would be accepted.
    fn admits(&self, bay: u32) -> bool
        ensures { result ≡ accepts bay (entries self.now) (places self.now) }
    {
        bay < 64 && !self.holds(bay) && self.len() < self.places()
    }

    // a policy without entries agrees
    ghost fresh: { (s : Self) → entries s ≡ [] → agrees s };

    // where the parts agree, no number stands twice, each is below 64, and they fit the places
    ghost single: { (s : Self) → agrees s → distinct (entries s) ≡ true };

    ghost below: { (s : Self) → agrees s → below_64 (entries s) ≡ true };

    ghost fits: { (s : Self) → agrees s → length (entries s) ≤ places s };

    // and an accepted put keeps the entries, in some order, and adds the new one
    ghost keeps: { (s : Self) (b : ℕ) (m : Bool) → agrees s → IsPermutation (b ∷ entries s) (after s b m) };

    // whatever the policy, there are at most 64 places
    ghost most: { (s : Self) → places s ≤ 64 };
}

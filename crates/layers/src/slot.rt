// One bay in a slot, before the bays of any policy.
ghost use Rattle.std.specs.Prelude.{◌≡◌};
ghost use Rattle.layers.specs.Slots.{empty_slot, slot_entries, slot_places, slot_agrees, slot_after};
ghost use Rattle.layers.specs.Kept.{slot_keeps};
ghost use Rattle.std.proofs.Common.{rules};

use schedule::Schedule;

// A new bay fills the slot, and the bay that was there goes below;
// a bay that was woken while running goes below itself.
#[derive(Drop)]
pub struct Slot<P: Schedule> {
    slot: Option<u32>,
    below: P,
}

impl<P: Schedule> Slot<P> {
    // An empty slot over a policy.
    pub fn new(below: P) -> Slot<P>
        ensures made { result ≡ empty_slot below }
        ensures agrees { P.Schedule.agrees below → slot_agrees P.Schedule result }
    {
        Slot { slot: None, below }
    }
}

impl<P: Schedule> Schedule for Slot<P> {
    ghost entries = { slot_entries P.Schedule };

    ghost places = { slot_places P.Schedule };

    ghost after = { slot_after P.Schedule };

    ghost agrees = { slot_agrees P.Schedule };

    ghost fresh = { Prim.search rules };

    ghost single = { Prim.search rules };

    ghost below = { Prim.search rules };

    ghost fits = { Prim.search rules };

    ghost keeps = { slot_keeps _ P.keeps };

    ghost most = { Prim.search rules };

    fn put(&mut self, bay: u32, woken_while_running: bool) -> bool {
        if !self.admits(bay) {
            return false;
        }
        // what goes below: the new bay, or the bay that it replaces in the slot
        let lower = if woken_while_running {
            Some(bay)
        } else {
            self.slot.replace(bay)
        };
        // refused only where the slot and the policy below do not agree
        if let Some(lower) = lower {
            self.below.put(lower, woken_while_running);
        }
        true
    }

    fn peek(&self) -> Option<u32> {
        self.slot.or_else(|| self.below.peek())
    }

    fn take(&mut self) -> Option<u32> {
        // not `or_else`, which does not say that a closure left uncalled changes nothing below
        match self.slot.take() {
            Some(bay) => Some(bay),
            None => self.below.take(),
        }
    }

    fn places(&self) -> usize {
        self.below.places()
    }

    fn len(&self) -> usize {
        self.below
            .len()
            .saturating_add(usize::from(self.slot.is_some()))
    }

    fn holds(&self, bay: u32) -> bool {
        self.slot == Some(bay) || self.below.holds(bay)
    }
}

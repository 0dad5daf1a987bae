// A line as a policy.
ghost use Rattle.std.specs.Prelude.{◌≡◌, min, [], vec_capacity, IfOk, OnOk};
ghost use Rattle.schedule.specs.History.{history};
ghost use Rattle.schedule.specs.Requests.{Serves, Refuses};
ghost use Rattle.queues.specs.Ends.{joined, Order};
ghost use Rattle.queues.specs.Lines.{in_line, line_places};
ghost use Rattle.queues.specs.Kept.{joined_keeps};
ghost use Rattle.std.proofs.Common.{rules};

use super::line::{End, Line};
use schedule::{Answer, Request, Schedule, Unserved, serve};
use std::alloc::{AllocError, Global};
use std::collections::VecDeque;
use std::marker::PhantomData;

impl<E: End> Line<E> {
    // An empty line with a number of places, above 64 counting as 64.
    pub fn new(heap: Global, places: usize) -> Result<Line<E>, AllocError>
        ensures { IfOk result (λ l. (in_line l ≡ []) × (line_places l ≡ min places 64)) }
    {
        let places = places.min(64);
        let bays = VecDeque::with_capacity(heap, places)?;
        Ok(Line {
            bays,
            places,
            end: PhantomData,
        })
    }

    // Carries out a list of requests on it while it is empty, as `schedule::serve` does.
    pub fn serve(&mut self, requests: &[Request], answers: &mut Vec<Answer>) -> Result<(), Unserved>
        ensures served { OnOk result (Serves ⟦<Line<E> as Schedule>⟧ self.old requests.now answers.new.items self.new) }
        ensures refused { Refuses ⟦<Line<E> as Schedule>⟧ requests.now (vec_capacity answers.old) self.old answers.old result self.new answers.new }
        ensures order { OnOk result (Order E.back (history requests.now answers.new.items) (in_line self.new)) }
    {
        serve(self, requests, answers)
    }
}

impl<E: End> Schedule for Line<E> {
    ghost entries = { in_line };

    ghost places = { line_places };

    ghost after = { λ l b _. joined E.End.back (in_line l) b };

    // what there is to agree on stands in the line's type
    ghost agrees = { λ _. Unit {0} };

    ghost fresh = { Prim.search rules };

    ghost single = { Prim.search rules };

    ghost below = { Prim.search rules };

    ghost fits = { Prim.search rules };

    ghost keeps = { λ l b m _. joined_keeps E.End.back (in_line l) b };

    ghost most = { Prim.search rules };

    fn put(&mut self, bay: u32, _woken_while_running: bool) -> bool {
        self.admits(bay) && E::join(&mut self.bays, bay).is_ok()
    }

    fn peek(&self) -> Option<u32> {
        self.bays.front().copied()
    }

    fn take(&mut self) -> Option<u32> {
        self.bays.pop_front()
    }

    fn places(&self) -> usize {
        self.places
    }

    fn len(&self) -> usize {
        self.bays.len()
    }

    fn holds(&self, bay: u32) -> bool {
        self.bays.contains(&bay)
    }
}

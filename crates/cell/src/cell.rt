// A bay, and the task cell in it.
ghost use Rattle.std.specs.Prelude.{◌≡◌, ⊤};

use super::raw::RawTask;
use super::register::Register;
use std::alloc::AllocError;
use std::marker::Model;

// A task and the register of its handles. What every cell keeps is in its type.
#[derive(Drop)]
pub struct Cell<F, O> {
    pub task: RawTask<F, O>,
    pub register: Register,
}

impl<F, O> Model for Cell<F, O> {
    ghost use Rattle.cell.specs.Keeps.{Cell as Seen, Keeps};

    ghost Value = { Seen F O };

    ghost view = { λ c. record { task = c.task; register = c.register } };

    ghost inverse = { λ c. record { task = c.task; register = c.register } };

    ghost invariant = { λ c. Keeps (record { task = c.task; register = c.register }) };
}

// By hand: a clone is the value and cannot fail. A derive clones part by part, which does not prove what every cell
// keeps.
impl<F: Copy, O: Copy> Clone for Cell<F, O> {
    ghost is_clone = { λ old new. new ≡ old };

    ghost is_infallible = { λ _. ⊤ };

    fn clone(&self) -> Result<Cell<F, O>, AllocError> {
        Ok(*self)
    }
}

impl<F: Copy, O: Copy> Copy for Cell<F, O> {}

// What is in a bay: nothing, or a cell.
pub type Bay<F, O> = Option<Cell<F, O>>;

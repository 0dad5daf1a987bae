// A refusal that gives the handle back.
use cell::report::Fault;

// Why a call was refused, and the handle that it was made with. It cannot be let go: the handle has to be spent.
pub struct Refused<H> {
    pub fault: Fault,
    pub handle: H,
}

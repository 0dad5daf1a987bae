// Last in, first out.
use super::line::{Front, Line};

// A new bay goes before the others.
pub type Stack = Line<Front>;

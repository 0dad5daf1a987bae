// First in, first out.
use super::line::{Back, Line};

// A new bay goes behind the others.
pub type Queue = Line<Back>;

// What a state word is: eight flags in its low byte, and above them the number of references.
#![tactic(auto)]

ghost use Rattle.bits.specs.State.{SetsOnly, ClearsOnly};
ghost use Rattle.bits.specs.Words.{Whole};

// Theorems, and no code: setting and clearing flags changes these flags and nothing else; and a word is determined
// by its parts.
pub fn flags_are_apart()
    ensures sets { SetsOnly }
    ensures clears { ClearsOnly }
    ensures whole { Whole }
{}

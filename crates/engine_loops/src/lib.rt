// Inner: the loops of decoding, encoding and counting. The run calls and the call on a whole text call them on tables whose shape was
// found good. No public calls. (Document 01, the first paragraph of "One call of a run"; docs/RULES.md, "A call of a run".)

#![tactic(auto)]

pub mod counter;
pub mod decoder;
pub mod encoder;
mod turns;

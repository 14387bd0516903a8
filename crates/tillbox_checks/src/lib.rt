// Inner: what a job looks at beside its text: whether its files are those of its checkpoint, which kinds of codes it met, and how much a
// table set holds.

#![tactic(auto)]

pub mod entries;
pub mod kinds;
pub mod tails;

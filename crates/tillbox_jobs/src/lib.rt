// Inner: the conversion of whole files, with checkpoints: what the program `tillbox` runs. Everything that is decided about a text is
// decided by the calls of `convert` and `checkpoint`; here files are read and written.

#![tactic(auto)]

pub mod blocks;
mod clock;
pub mod job;
pub mod names;
pub mod report;
pub mod resume;
pub mod shape;
pub mod stops;
pub mod tables;
pub mod units;

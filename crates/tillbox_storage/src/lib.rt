// Inner: files that a job reads and writes, its checkpoint file, and what is said about them.

#![tactic(auto)]

pub mod checkpoints;
pub mod files;
pub mod messages;
pub mod names;
mod reason;

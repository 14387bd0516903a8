// Inner: a table image written as a listing, and a listing read into a table image. (CR 3, `tillbox listing`, `tillbox table`.) What is
// decided about a line is decided by `listing::read_line` and `lister::write_line`; here the lines go to files and come from them, and a
// refusal is told in words.

#![tactic(auto)]

mod faults;
mod messages;
pub mod names;
pub mod reading;
mod saving;
mod state;
pub mod writing;

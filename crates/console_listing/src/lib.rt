// Inner: the console's commands that read a table listing into lent tables and write one of the table set. (docs/CONSOLE.md, CR 3.)

#![tactic(auto)]

pub mod ending;
pub mod reading;
pub mod sums;
pub mod writing;

// Inner: a journal imported, decoded block by block, cut into fields, and written as records in a CSV file.

#![tactic(auto)]

pub mod blocks;
pub mod cutting;
pub mod job;
pub mod records;
pub mod report;

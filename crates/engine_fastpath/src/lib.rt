// Inner: the fast paths of the loops of decoding, encoding and counting, plain text taken whole and runs of codes that have
// characters. The loops call them on tables whose shape was found good. No public calls.

#![tactic(auto)]

pub mod counted;
pub mod mixed;
pub mod plain;
pub mod runs;

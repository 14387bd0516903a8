// Inner: what the tester's console reads and holds, the words of a line, its command, the texts, and the state. (docs/CONSOLE.md.)

#![tactic(auto)]

pub mod command;
pub mod state;
pub mod texts;
pub mod words;

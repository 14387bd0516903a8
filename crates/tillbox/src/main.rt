// tillbox: the commands, with memory for one table set. The sizes are a little over those of the largest one: 256 classes, singles and
// index numbers, 256 pairs for each of 128 lead bytes, 256 blocks of 256; and its image.

#![tactic(auto)]

use std::alloc::AllocError;
use std::process::ExitCode;
use tillbox_command::{Memory, TableRoom};

// Lends the memory to the commands, and answers their exit status.
fn run(rt: &HostRuntime) -> Result<u8, AllocError> {
    let mut image = vec![in rt.alloc(); 0u8; 200000]?;
    let mut classes = vec![in rt.alloc(); 0u8; 300]?;
    let mut singles = vec![in rt.alloc(); 0u16; 300]?;
    let mut pairs = vec![in rt.alloc(); 0u16; 33024]?;
    let mut index = vec![in rt.alloc(); 0u8; 300]?;
    let mut blocks = vec![in rt.alloc(); 0u16; 66048]?;
    let room = TableRoom {
        classes: &mut classes,
        singles: &mut singles,
        pairs: &mut pairs,
        index: &mut index,
        blocks: &mut blocks,
    };
    let mut memory = Memory {
        image: &mut image,
        room,
    };
    Ok(tillbox_command::tillbox_main(rt, &mut memory))
}

// Says that there is no memory for the tables.
fn say_no_memory() -> ExitCode {
    io::write_all(2, b"tillbox: error: there is no memory for the tables\n");
    io::write_all(1, b"failed\n");
    ExitCode::FAILURE
}

fn main(rt: HostRuntime) -> ExitCode {
    match run(&rt) {
        Ok(status) => ExitCode::from(status),
        Err(_) => say_no_memory(),
    }
}

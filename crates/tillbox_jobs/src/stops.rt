// The code that a run was stopped at by its policy: found again in the block that the stopping call was given, of at most 2,048 units.
use crate::units::Unit;
use codepage::TableSet;
use convert::{Pending, Policy, Run};
use tillbox_checks::kinds::Kind;

// A code of one or two units (decoding: bytes), and its kind.
#[derive(Clone, Copy)]
pub struct Stop {
    pub first: u16,
    pub second: Option<u16>,
    pub kind: Kind,
}

impl Stop {
    // How many units it has.
    pub fn size(self) -> usize {
        if self.second.is_some() { 2 } else { 1 }
    }
}

// Whether a run was stopped by its policy.
pub fn is_stopped(run: Run) -> bool {
    run.flags / 8 % 2 == 1
}

// A run that stops at the first code without a character. None where no run of the page may begin.
fn stopping<U: Unit>(page: u16) -> Option<Run> {
    let policy = Policy {
        single: 0,
        pair: 0,
        invalid: 0,
    };
    Run::start(U::DIRECTION, page, policy).ok()
}

// The code that ends with a unit: one that waited and this one, if they are one code, or this one alone.
fn ending_with<U: Unit>(waiting: Option<U>, tables: &TableSet, unit: U) -> Option<Stop> {
    let run = stopping::<U>(tables.numbers.page)?;
    if let Some(first) = waiting {
        let both = U::call_on_two(run, tables, first, unit);
        if both.read == 2 {
            return Some(Stop {
                first: first.unit(),
                second: Some(unit.unit()),
                kind: Kind::of_flag(both.run.flags % 8),
            });
        }
    }
    let one = U::call_on_one(run, tables, unit);
    Some(Stop {
        first: unit.unit(),
        second: None,
        kind: Kind::of_flag(one.run.flags % 8),
    })
}

// A pending unit that was settled alone. That is an invalid code.
fn settled_alone(pending: Pending) -> Option<Stop> {
    let first = match pending {
        Pending::Nothing => return None,
        Pending::Byte(byte) => byte as u16,
        Pending::High(unit) => unit,
    };
    Some(Stop {
        first,
        second: None,
        kind: Kind::Invalid,
    })
}

// The code that a call on a block stopped the run at, if it is known: `before` is the run before the call, and `read` what the call read.
// The block is read again, up to its last unit that was read: what waits then is the code's first half.
pub fn stop_in<U: Unit>(before: Run, tables: &TableSet, block: &[U], read: usize) -> Option<Stop> {
    let Some(at) = read.checked_sub(1) else {
        return settled_alone(before.pending);
    };
    if block.len() <= at {
        return None;
    }
    let after = U::call(before, tables, &block[..at], false).run;
    ending_with(U::waiting(after.pending), tables, block[at])
}

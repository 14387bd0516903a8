// A page's tables under a policy: what each code does.
ghost use Rattle.std.specs.Prelude.{◌≡◌, true};
ghost use Rattle.engine.specs.declared.Direction.TheVariants.{Encoding};
ghost use Rattle.engine.specs.Policies.{policy_allowed};

use crate::Policy;
use codepage_lookup::tables::{ByteTables, LeadTables, UnitTables};

// Bytes to units. `default` is what digit 5 writes.
#[derive(Clone, Copy)]
pub struct ByteConverter<'a> {
    pub tables: ByteTables<'a>,
    pub policy: Policy,
    pub default: u16,
}

// The same, with the lead bytes found.
#[derive(Clone, Copy)]
pub struct LeadConverter<'a> {
    pub tables: LeadTables<'a>,
    pub policy: Policy,
    pub default: u16,
}

// Units to bytes.
#[derive(Clone, Copy)]
pub struct UnitConverter<'a> {
    pub tables: UnitTables<'a>,
    pub policy: Policy,
    pub default: u8,
    ghost allowed: { policy_allowed Encoding policy ≡ true },
}

// Inner: taking code after code, what it means and what a code does. `convert` hands on the types that a caller needs, `Policy` and
// `Direction`. (Document 01, "Policies and flags" and the first paragraph of "One call of a run"; docs/RULES.md, "Policies and flags".)

#![tactic(auto)]

ghost use Rattle.std.specs.Prelude.{◌≡◌};
ghost use Rattle.engine.specs.Policies.{digits, standard, replacing, skipping};

pub mod converters;
pub mod policies;
pub mod progress;

// Decoding turns bytes into units, encoding units into bytes.
#[derive(Clone, Copy, Debug, PartialEq, Eq)]
pub enum Direction {
    Decoding,
    Encoding,
}

// What is done about a code without a character: a digit for an undefined single, an undefined pair, an invalid code.
#[derive(Clone, Copy, Debug, PartialEq, Eq)]
pub struct Policy {
    pub single: u8,
    pub pair: u8,
    pub invalid: u8,
}

// A policy by its digits.
fn with_digits(single: u8, pair: u8, invalid: u8) -> Policy
    ensures { result ≡ digits single pair invalid }
{
    Policy {
        single,
        pair,
        invalid,
    }
}

impl Policy {
    // The standard policy, 550: it stops on an invalid code.
    pub fn standard() -> Policy
        ensures { result ≡ standard }
    {
        with_digits(5, 5, 0)
    }

    // 555, for programs that must get through: it writes the default for every code without a character.
    pub fn replacing() -> Policy
        ensures { result ≡ replacing }
    {
        with_digits(5, 5, 5)
    }

    // 111: it skips every code without a character. A text gives as many units (encoding: bytes) more under 555 as it has such
    // codes (`replaced-are-more`).
    pub fn skipping() -> Policy
        ensures { result ≡ skipping }
    {
        with_digits(1, 1, 1)
    }
}

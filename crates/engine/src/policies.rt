// What a policy does about a code: one function from its kind to the digit to the action, for both directions.
ghost use Rattle.std.specs.Prelude.{◌≡◌, true, ℕ, ◌≤◌, length};
ghost use Rattle.codepage.specs.Reading.{unit_of, bytes_of, is_high, settled};
ghost use Rattle.codepage_lookup.specs.Tables.{LeadOf};
ghost use Rattle.engine.specs.declared.Direction.TheVariants.{Encoding};
ghost use Rattle.engine.specs.Policies.{digit_of, flag_of, action_of, highest_single, policy_allowed};
ghost use Rattle.engine.specs.Engine.{effect_of};
ghost use Rattle.engine.specs.Steps.{acted_as, unit_effect, byte_effect, does_alone, does_settled};
ghost use Rattle.engine.specs.Converters.{by_bytes, by_leads, by_units};

use crate::converters::{ByteConverter, LeadConverter, UnitConverter};
use crate::{Direction, Policy};
use codepage::{Kind, Lookup};

// What a digit does.
#[derive(Clone, Copy)]
pub enum Action {
    Stop,
    Skip,
    Write(u16),
}

// What a code does: the flag that it sets, what it writes (count: how many elements, of `value`), and whether it stops.
#[derive(Clone, Copy)]
pub struct CodeEffect {
    pub flag: u8,
    pub count: u8,
    pub value: u16,
    pub stops: bool,
}

// The highest first digit: 6 only in decoding.
fn highest_single(direction: Direction) -> u8
    ensures { result ≡ highest_single direction }
{
    match direction {
        Direction::Decoding => 6,
        Direction::Encoding => 5,
    }
}

// Whether a run of a direction may have these digits.
pub fn allowed(direction: Direction, policy: Policy) -> bool
    ensures { result ≡ policy_allowed direction policy }
{
    if highest_single(direction) < policy.single {
        return false;
    }
    if 5 < policy.pair {
        return false;
    }
    policy.invalid <= 5
}

// The digit that decides about codes of a kind.
fn digit_of(policy: Policy, kind: Kind) -> u8
    ensures { result ≡ digit_of policy kind }
{
    match kind {
        Kind::UndefinedSingle => policy.single,
        Kind::UndefinedPair => policy.pair,
        Kind::Invalid => policy.invalid,
    }
}

// The flag that a code of a kind sets.
fn flag_of(kind: Kind) -> u8
    ensures { result ≡ flag_of kind }
{
    match kind {
        Kind::UndefinedSingle => 1,
        Kind::UndefinedPair => 2,
        Kind::Invalid => 4,
    }
}

// What a digit does about a code. `default` is what digit 5 writes, `byte` what digit 6 adds to F100.
fn action_of(digit: u8, default: u16, byte: u8) -> Action
    ensures { result ≡ action_of digit default byte }
{
    if digit == 0 {
        return Action::Stop;
    }
    if digit == 1 {
        return Action::Skip;
    }
    if digit == 2 {
        return Action::Write(0);
    }
    if digit == 3 {
        return Action::Write(0x3F);
    }
    if digit == 4 {
        return Action::Write(0x5F);
    }
    if digit == 5 {
        return Action::Write(default);
    }
    Action::Write(0xF100 + (byte as u16))
}

// What an action does, with the flag of the code's kind.
fn acted(flag: u8, action: Action) -> CodeEffect
    ensures { result ≡ acted_as flag action }
{
    match action {
        Action::Stop => CodeEffect {
            flag,
            count: 0,
            value: 0,
            stops: true,
        },
        Action::Skip => CodeEffect {
            flag,
            count: 0,
            value: 0,
            stops: false,
        },
        Action::Write(value) => CodeEffect {
            flag,
            count: 1,
            value,
            stops: false,
        },
    }
}

// A code that has no character.
fn lacking(policy: Policy, default: u16, byte: u8, kind: Kind) -> CodeEffect
    ensures { result ≡ acted_as (flag_of kind) (action_of (digit_of policy kind) default byte) }
{
    let digit = digit_of(policy, kind);
    let flag = flag_of(kind);
    let action = action_of(digit, default, byte);
    acted(flag, action)
}

// What a code of bytes does in decoding.
pub fn decoded(policy: Policy, default: u16, byte: u8, lookup: Lookup) -> CodeEffect
    ensures { unit_effect result ≡ effect_of unit_of policy default byte lookup }
{
    match lookup {
        Ok(value) => CodeEffect {
            flag: 0,
            count: 1,
            value,
            stops: false,
        },
        Err(kind) => lacking(policy, default, byte, kind),
    }
}

// What a unit does in encoding.
pub fn encoded(policy: Policy, default: u8, lookup: Lookup) -> CodeEffect
    requires { policy_allowed Encoding policy ≡ true }
    ensures { (unit : ℕ) → byte_effect result ≡ effect_of bytes_of policy default unit lookup }
{
    match lookup {
        Ok(value) => found_code(value),
        Err(kind) => lacking(policy, default as u16, 0, kind),
    }
}

// The bytes of a code.
fn found_code(code: u16) -> CodeEffect
    ensures { (policy : Policy) (default unit : ℕ) → byte_effect result ≡ effect_of bytes_of policy default unit (Ok code) }
{
    if code <= 0xFF {
        return CodeEffect {
            flag: 0,
            count: 1,
            value: code,
            stops: false,
        };
    }
    CodeEffect {
        flag: 0,
        count: 2,
        value: code,
        stops: false,
    }
}

impl<'a> ByteConverter<'a> {
    // What a byte does that is a code by itself.
    pub fn alone(&self, byte: u8) -> CodeEffect
        ensures { unit_effect result ≡ does_alone (by_bytes self.now) byte }
    {
        let code = self.tables.byte_alone(byte);
        decoded(self.policy, self.default, byte, code)
    }

    // The same, with the lead bytes found.
    pub fn with_leads(&self) -> LeadConverter<'a>
        ensures { (result.tables.tables ≡ self.now.tables) × (result.policy ≡ self.now.policy) × (result.default ≡ self.now.default) }
    {
        let tables = self.tables.with_leads();
        LeadConverter {
            tables,
            policy: self.policy,
            default: self.default,
        }
    }
}

// A code of two units or of the first alone: what it does, and how many units it takes after the first.
#[derive(Clone, Copy)]
pub struct SettledEffect {
    pub effect: CodeEffect,
    pub more: usize,
}

impl<'a> LeadConverter<'a> {
    // The converter of bytes that this one goes by.
    pub fn bytes(&self) -> ByteConverter<'a>
        ensures { by_bytes result ≡ by_leads self.now }
    {
        let tables = self.tables;
        ByteConverter {
            tables: tables.tables,
            policy: self.policy,
            default: self.default,
        }
    }

    // What a lead byte does, settled by the byte after it.
    pub fn settled(&self, lead: u8, byte: u8) -> SettledEffect
        requires { LeadOf self.now.tables.tables lead }
        ensures effect { unit_effect result.effect ≡ does_settled (by_leads self.now) lead byte }
        ensures more { (result.more ≤ 1) × (result.more ≡ length (settled (by_leads self.now).reader lead byte).more) }
    {
        let code = self.tables.settle(lead, byte);
        let means = code.means;
        let effect = decoded(self.policy, self.default, lead, means);
        SettledEffect {
            effect,
            more: code.more,
        }
    }
}

impl UnitConverter<'_> {
    // What a unit does that is a code by itself.
    pub fn alone(&self, unit: u16) -> CodeEffect
        ensures { byte_effect result ≡ does_alone (by_units self.now) unit }
    {
        let code = self.tables.unit_alone(unit);
        encoded(self.policy, self.default, code)
    }

    // What a high surrogate does, settled by the unit after it.
    pub fn settled(&self, high: u16, unit: u16) -> SettledEffect
        requires { is_high high ≡ true }
        ensures effect { byte_effect result.effect ≡ does_settled (by_units self.now) high unit }
        ensures more { (result.more ≤ 1) × (result.more ≡ length (settled (by_units self.now).reader high unit).more) }
    {
        let code = codepage_lookup::settle_high(unit);
        let means = code.means;
        let effect = encoded(self.policy, self.default, means);
        SettledEffect {
            effect,
            more: code.more,
        }
    }
}

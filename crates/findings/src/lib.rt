// Why a flag is up: the codes of a byte text that have no character, each with its place, its kind, its bytes and the policy digit that
// was applied. (Document 02, CR 7; docs/RULES.md, "Findings".) They come in order of place, up to the text's end or the first stop.
//
//     let listed = findings::list_findings(policy, &tables, text, list);
//     // Ok(count): how many there are, as many of them as fit at the front of `list`; or Err(why): why.number()
//
// An empty list only counts. Entries beyond those filled, and all of them in a refused call, stay as they were.

#![tactic(auto)]

ghost use Rattle.std.specs.Prelude.{◌≡◌, true, List, [], ℕ, ◌+◌, ◌≤◌, ◌<◌, ltb, length, MatchOption, OnOk, IfErr};
ghost use Rattle.codepage.specs.CodePage.{page_of, pick, entry_at};
ghost use Rattle.codepage.specs.Reading.{decoder};
ghost use Rattle.engine.specs.Policies.{flag_of, digit_of};
ghost use Rattle.codepage_lookup.specs.Profile.{PlainPage};
ghost use Rattle.codepage_lookup.specs.Tables.{byte_reader};
ghost use Rattle.convert.specs.Runs.{piece_limit};
ghost use Rattle.findings.specs.Findings.{findings_from};
ghost use Rattle.findings.specs.Calls.{findings_number, findings_call, FindingsListed, next_of};
ghost use Rattle.findings.specs.Steps.{finding_at, LookedAt, Passed, FoundAt, Filled};
ghost use Rattle.findings.specs.Claims.{FindingsPasses, FindingsSays};

use codepage::{Kind, TableSet};
use codepage_lookup::tables::{ByteTables, LeadTables};
use codepage_lookup::words;
use convert::Run;
use engine::converters::ByteConverter;
use engine::{Direction, Policy, policies};
use engine_fastpath::mixed;
use engine_loops::counter;

// A code without a character: the place of its first byte, its kind by its flag (1 undefined single, 2 undefined pair, 4 invalid), how
// many bytes it has, 1 or 2, these (the second is 0 where there is one), and the policy digit that was applied.
// Kept: numbers, since C is handed this struct.
#[repr(C)]
#[derive(Clone, Copy, PartialEq, Eq)]
pub struct Finding {
    pub place: usize,
    pub kind: u8,
    pub size: u8,
    pub first: u8,
    pub second: u8,
    pub digit: u8,
}

// Why a call is refused.
#[derive(Clone, Copy)]
pub enum Refusal {
    // 17: a policy digit is not allowed.
    BadPolicy,
    // 10: the shape of the tables is not good.
    BadShape,
    // 11: the text is over the limit.
    TooLong,
}

impl Refusal {
    // The number that document 01 gives the refusal.
    pub fn number(self) -> u8
        ensures { result ≡ findings_number self }
    {
        match self {
            Refusal::BadPolicy => 17,
            Refusal::BadShape => 10,
            Refusal::TooLong => 11,
        }
    }
}

// A byte text, and what its findings are told by: the tables of a page whose shape was found good, whether the page keeps text below 80 as
// it is, and the policy.
#[derive(Clone, Copy)]
struct Search<'a> {
    tables: LeadTables<'a>,
    plain: bool,
    policy: Policy,
    text: &'a [u8],
    ghost plain_page: { plain ≡ true → PlainPage tables.tables.classes.now tables.tables.singles.now },
}

// A finding, and the place behind its code.
#[derive(Clone, Copy)]
struct Located {
    finding: Finding,
    end: usize,
}

// What is at a place of a text: its finding, if the code there has no character, and the place behind the code.
#[derive(Clone, Copy)]
struct Looked {
    finding: Option<Finding>,
    end: usize,
}

// The flag of a kind.
fn kind_number(kind: Kind) -> u8
    ensures { result ≡ flag_of kind }
{
    match kind {
        Kind::UndefinedSingle => 1,
        Kind::UndefinedPair => 2,
        Kind::Invalid => 4,
    }
}

// The policy digit of a kind.
fn digit_for(policy: Policy, kind: Kind) -> u8
    ensures { result ≡ digit_of policy kind }
{
    match kind {
        Kind::UndefinedSingle => policy.single,
        Kind::UndefinedPair => policy.pair,
        Kind::Invalid => policy.invalid,
    }
}

// The second byte of a code of `size` bytes at a place, or 0 where it has one byte.
fn second_byte(text: &[u8], place: usize, size: usize) -> u8
    requires { place + size ≤ length text.now }
    ensures { result ≡ pick (ltb 1 size) (entry_at text.now (place + 1)) 0 }
{
    if 1 < size {
        return text[place + 1];
    }
    0
}

// The finding of a code of a kind.
fn finding_at(policy: Policy, kind: Kind, text: &[u8], place: usize, size: usize) -> Finding
    requires { (1 ≤ size) × (size ≤ 2) × (place + size ≤ length text.now) }
    ensures { result ≡ finding_at policy kind text.now place size }
{
    let number = kind_number(kind);
    let digit = digit_for(policy, kind);
    let second = second_byte(text, place, size);
    Finding {
        place,
        kind: number,
        size: size as u8,
        first: text[place],
        second,
        digit,
    }
}

// Passes over plain bytes, eight at a time, where the page keeps them as they are: the place behind them. The last seven may be left.
fn pass_plain(plain: bool, text: &[u8], from: usize) -> usize
    requires { from ≤ length text.now }
    ensures { (policy : Policy) (classes singles pairs : List ℕ) → (plain ≡ true → PlainPage classes singles) → Passed (decoder classes singles pairs) policy text.now from result }
{
    if !plain {
        return from;
    }
    let mut place = from;
    // Kept: a turn moves by the plain bytes that it read, so there is no range to go over.
    while 8 <= text.len() - place {
        let count = mixed::plain_count(words::word_at(text, place));
        place += count;
        if count < 8 {
            return place;
        }
    }
    place
}

// Whether every code of a text has a character: counting it, stopped at the first that has none, goes to its end.
fn is_clean(tables: &ByteTables<'_>, text: &[u8]) -> bool
    ensures { result ≡ true → (policy : Policy) → findings_from (byte_reader tables.now) policy text.now 0 ≡ [] }
{
    let stopping = Policy {
        single: 0,
        pair: 0,
        invalid: 0,
    };
    let converter = ByteConverter {
        tables: *tables,
        policy: stopping,
        default: 0,
    };
    let counted = counter::count_decoded(&converter, text);
    counted.answer == 0
}

// The checks of a call: the first that fails is its refusal.
fn check(policy: Policy, tables: &TableSet, text: &[u8]) -> Result<(), Refusal>
    ensures passes { OnOk result (FindingsPasses policy (page_of tables.now) text.now) }
    ensures refused { IfErr result (λ why. FindingsSays policy (page_of tables.now) text.now why) }
{
    if !policies::allowed(Direction::Decoding, policy) {
        return Err(Refusal::BadPolicy);
    }
    if !codepage::shape::good_shape(tables) {
        return Err(Refusal::BadShape);
    }
    if Run::PIECE_LIMIT < text.len() {
        return Err(Refusal::TooLong);
    }
    Ok(())
}

impl Search<'_> {
    // The code at a place.
    fn look_at(&self, place: usize) -> Looked
        requires { place < length self.now.text.now }
        ensures { LookedAt (byte_reader self.now.tables.tables) self.now.policy self.now.text.now place result }
    {
        let text = self.text;
        let read = codepage_walk::code_in(&self.tables, text, place);
        let size = read.size;
        let end = place + size;
        let means = read.means;
        match means {
            Ok(_) => Looked { finding: None, end },
            Err(kind) => {
                let finding = finding_at(self.policy, kind, text, place, size);
                Looked {
                    finding: Some(finding),
                    end,
                }
            }
        }
    }

    // The first finding from a place on, if there is one.
    fn find_from(&self, from: usize) -> Option<Located>
        requires { from ≤ length self.now.text.now }
        ensures { MatchOption result (findings_from (byte_reader self.now.tables.tables) self.now.policy self.now.text.now from ≡ []) (λ next. FoundAt (byte_reader self.now.tables.tables) self.now.policy self.now.text.now from next) }
    {
        let text = self.text;
        let mut place = pass_plain(self.plain, text, from);
        // Kept: a turn moves by the code that it read, so there is no range to go over.
        while place < text.len() {
            let code = self.look_at(place);
            if let Some(finding) = code.finding {
                return Some(Located {
                    finding,
                    end: code.end,
                });
            }
            place = pass_plain(self.plain, text, code.end);
        }
        None
    }

    // How many findings there are from a place on.
    fn count_from(&self, from: usize) -> usize
        requires { (from ≤ length self.now.text.now) × (length self.now.text.now ≤ piece_limit) }
        ensures { (result ≡ length (findings_from (byte_reader self.now.tables.tables) self.now.policy self.now.text.now from)) × (result ≤ length self.now.text.now) }
    {
        let text = self.text;
        let mut place = from;
        let mut count: usize = 0;
        // Kept: a turn moves behind the finding that it read, so there is no range to go over.
        while place < text.len() {
            let Some(next) = self.find_from(place) else {
                return count;
            };
            count += 1;
            if next.finding.digit == 0 {
                return count;
            }
            place = next.end;
        }
        count
    }

    // Puts the findings of a text to the front of a list, as many as it has room for: how many there are.
    fn fill_list(&self, list: &mut [Finding]) -> usize
        requires { length self.now.text.now ≤ piece_limit }
        ensures { Filled (findings_from (byte_reader self.now.tables.tables) self.now.policy self.now.text.now 0) result list.old list.new }
    {
        let mut place: usize = 0;
        for count in 0..list.len() {
            let Some(next) = self.find_from(place) else {
                return count;
            };
            let finding = next.finding;
            list[count] = finding;
            if finding.digit == 0 {
                return count + 1;
            }
            place = next.end;
        }
        let rest = self.count_from(place);
        list.len() + rest
    }
}

// Lists the findings of a text under a policy: as many as fit at the front of the list.
pub fn list_findings(
    policy: Policy,
    tables: &TableSet,
    text: &[u8],
    list: &mut [Finding],
) -> Result<usize, Refusal>
    ensures { FindingsListed (findings_call policy (page_of tables.now) text.now) result list.old list.new }
{
    check(policy, tables, text)?;
    let bytes = ByteTables {
        classes: tables.classes,
        singles: tables.singles,
        pairs: tables.pairs,
    };
    if is_clean(&bytes, text) {
        return Ok(0);
    }
    let leads = bytes.with_leads();
    let plain = bytes.keeps_plain();
    let search = Search {
        tables: leads,
        plain,
        policy,
        text,
    };
    Ok(search.fill_list(list))
}

// The first finding of a text from a place on, at which a code begins, by value. Behind it, at its place and size, the next is asked for,
// unless its digit is 0: it stopped the reading.
pub fn next_finding(
    policy: Policy,
    tables: &TableSet,
    text: &[u8],
    from: usize,
) -> Result<Option<Finding>, Refusal>
    ensures { result ≡ next_of policy (page_of tables.now) text.now from }
{
    check(policy, tables, text)?;
    if text.len() <= from {
        return Ok(None);
    }
    let bytes = ByteTables {
        classes: tables.classes,
        singles: tables.singles,
        pairs: tables.pairs,
    };
    let leads = bytes.with_leads();
    let plain = bytes.keeps_plain();
    let search = Search {
        tables: leads,
        plain,
        policy,
        text,
    };
    let next = search.find_from(from);
    Ok(next.map(|next| next.finding))
}

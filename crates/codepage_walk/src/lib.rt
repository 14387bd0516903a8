// Inner: the code at a place of a byte text, read with no policy: its size, and what it means. Our own crates call it on tables whose
// shape was found good. No public calls. (Document 02, CR 7, 8, 11 and 12; docs/RULES.md, "Reading bytes".)

#![tactic(auto)]

ghost use Rattle.std.specs.Prelude.{◌≡◌, true, ℕ, ◌+◌, ◌*◌, ◌≤◌, ◌<◌, length};
ghost use Rattle.codepage.specs.CodePage.{entry_at, is_lead, leads_below};
ghost use Rattle.codepage.specs.Reading.{decoder};
ghost use Rattle.codepage_lookup.specs.Profile.{LeadsAt};
ghost use Rattle.codepage_lookup.specs.Tables.{byte_reader};
ghost use Rattle.codepage_walk.specs.Walk.{ReadAs, ClassesSize};

use codepage::Lookup;
use codepage_lookup::profile::Leads;
use codepage_lookup::tables::LeadTables;

// A code: how many bytes it has, 1 or 2, and what it means.
#[derive(Clone, Copy)]
pub struct CodeRead {
    pub size: usize,
    pub means: Lookup,
}

// How many bytes the code at a place has. A lead byte takes the byte after it, if there is one, unless that is below 80 and may not
// be second (CR 2).
pub fn code_size(classes: &[u8], text: &[u8], place: usize) -> usize
    requires { (length classes.now ≡ 256) × (place < length text.now) }
    ensures { ClassesSize classes.now text.now place result }
{
    if !codepage_lookup::is_lead(classes, text[place]) {
        return 1;
    }
    if text.len() - place == 1 {
        return 1;
    }
    if 0x80 <= text[place + 1] {
        return 2;
    }
    let next = text[place + 1] as usize;
    if codepage::is_trail_class(classes[next]) {
        return 2;
    }
    1
}

// The code at a place.
pub fn code_at(
    classes: &[u8],
    singles: &[u16],
    pairs: &[u16],
    leads: Leads,
    text: &[u8],
    place: usize,
) -> CodeRead
    requires classes_len { (length classes.now ≡ 256) × (length singles.now ≡ 256) × (place < length text.now) × LeadsAt classes.now leads }
    requires by_index { (lead : ℕ) → lead < 256 → is_lead (entry_at classes.now lead) ≡ true → 256 * leads_below classes.now lead + 256 ≤ length pairs.now }
    ensures { ReadAs (decoder classes.now singles.now pairs.now) text.now place result }
{
    let byte = text[place];
    if text.len() - place == 1 {
        return CodeRead {
            size: 1,
            means: codepage_lookup::byte_alone(classes, singles, byte),
        };
    }
    if !codepage_lookup::is_lead(classes, byte) {
        return CodeRead {
            size: 1,
            means: codepage_lookup::byte_alone(classes, singles, byte),
        };
    }
    let settled = codepage_lookup::settle(classes, pairs, leads, byte, text[place + 1]);
    let means = settled.means;
    CodeRead {
        size: settled.more + 1,
        means,
    }
}

// The same, on tables that carry what it asks of them.
pub fn code_in(tables: &LeadTables<'_>, text: &[u8], place: usize) -> CodeRead
    requires { place < length text.now }
    ensures { ReadAs (byte_reader tables.now.tables) text.now place result }
{
    let bytes = tables.tables;
    code_at(
        bytes.classes,
        bytes.singles,
        bytes.pairs,
        tables.leads,
        text,
        place,
    )
}

// Breaks a byte text into printed lines of at most a given width, with no code cut. (Document 02, CR 12; docs/RULES.md, "Lines".) A break
// is the place, from 0, at which a line after the first begins.
//
// `check_breaks` says whether the breaks that a layout tool proposes are acceptable, `propose_breaks` writes breaks of our own to the
// front of a lent list: each line from the first on as long as it can be, so that no acceptable breaks have fewer lines.
//
//     let proposed = linebreak::propose_breaks(&tables, text, width, list);
//     // Ok(count), or Err(why): why.number()

#![tactic(auto)]

ghost use Rattle.std.specs.Prelude.{◌≡◌, true, ◌+◌, ◌≤◌, ◌<◌, length, drop};
ghost use Rattle.codepage.specs.CodePage.{page_of};
ghost use Rattle.codepage.specs.Lent.{over};
ghost use Rattle.codepage.specs.Reading.{Reader, codes};
ghost use Rattle.convert.specs.Runs.{piece_limit};
ghost use Rattle.codepage_walk.specs.Checks.{ForClasses};
ghost use Rattle.linebreak.specs.Breaks.{ours, breakable};
ghost use Rattle.linebreak.specs.Calls.{break_number, check_of, proposal_of, ProposedAs};
ghost use Rattle.linebreak.specs.Steps.{last_code_place, GoodClasses, LeadsBefore, line_good, lines_good, our_count, sure_to_fit};

use codepage::TableSet;
use convert::Run;

// Why a call is refused.
#[derive(Clone, Copy)]
pub enum Refusal {
    // 10: the shape of the tables is not good.
    BadShape,
    // 11: the text is over the limit.
    TooLong,
    // 30: the breaks are not acceptable.
    NotAcceptable,
    // 31: no acceptable breaks exist.
    NoneExists,
    // 32: the lent list is too short for our breaks.
    ListTooShort,
}

impl Refusal {
    // The number that document 02 gives the refusal.
    pub fn number(self) -> u8
        ensures { result ≡ break_number self }
    {
        match self {
            Refusal::BadShape => 10,
            Refusal::TooLong => 11,
            Refusal::NotAcceptable => 30,
            Refusal::NoneExists => 31,
            Refusal::ListTooShort => 32,
        }
    }
}

// Where the lead bytes side by side before `to` begin, back to `from`.
fn leads_before(classes: &[u8], text: &[u8], from: usize, to: usize) -> usize
    requires { (length classes.now ≡ 256) × (from ≤ to) × (to ≤ length text.now) }
    ensures { LeadsBefore classes.now text.now from to result }
{
    for place in (from..to).rev() {
        if !codepage_lookup::is_lead(classes, text[place]) {
            return place + 1;
        }
    }
    from
}

// The last place, not behind `to`, where a code begins or the text ends, of the codes that follow one another from `from`. Behind a
// byte that is no lead byte a code ends, and lead bytes side by side are codes of two; so only those before `to` are looked at.
fn last_place(classes: &[u8], text: &[u8], from: usize, to: usize) -> usize
    requires { GoodClasses classes.now × (from ≤ to) × (to ≤ length text.now) }
    ensures { ForClasses classes.now (λ (reader : Reader). result ≡ last_code_place to from (codes reader (drop from text.now))) }
{
    let begin = leads_before(classes, text, from, to);
    if (to - begin) % 2 == 0 {
        return to;
    }
    if codepage_walk::code_size(classes, text, to - 1) == 2 {
        return to - 1;
    }
    to
}

// Whether a line that is not the last may go from `start` to a break: it has 1 to width bytes, the break is an inner place, and no
// code is cut.
fn is_line(classes: &[u8], text: &[u8], width: u64, start: usize, end: u64) -> bool
    requires { GoodClasses classes.now × (start ≤ length text.now) × (length text.now ≤ piece_limit) }
    ensures { ForClasses classes.now (λ (reader : Reader). result ≡ line_good reader text.now width start end) }
{
    if end <= (start as u64) {
        return false;
    }
    if (text.len() as u64) <= end {
        return false;
    }
    if width < end - (start as u64) {
        return false;
    }
    let to = end as usize;
    last_place(classes, text, start, to) == to
}

// Whether breaks are acceptable: line after line.
fn are_lines(classes: &[u8], text: &[u8], width: u64, breaks: &[u64]) -> bool
    requires { GoodClasses classes.now × (length text.now ≤ piece_limit) }
    ensures { ForClasses classes.now (λ (reader : Reader). result ≡ lines_good reader text.now width 0 breaks.now) }
{
    let mut start: usize = 0;
    for end in breaks {
        if !is_line(classes, text, width, start, *end) {
            return false;
        }
        start = *end as usize;
    }
    ((text.len() - start) as u64) <= width
}

// Counts our breaks, if acceptable ones exist: while more than a line is left, a line as long as it can be.
fn count_breaks(classes: &[u8], text: &[u8], width: u64) -> Option<usize>
    requires { GoodClasses classes.now × (length text.now ≤ piece_limit) }
    ensures { ForClasses classes.now (λ (reader : Reader). result ≡ our_count reader text.now width) }
{
    let mut count: usize = 0;
    let mut start: usize = 0;
    // Kept: where a line begins is known only once the line before it ends, so there is no range to go over.
    while width < ((text.len() - start) as u64) {
        let end = last_place(classes, text, start, start + (width as usize));
        if end == start {
            return None;
        }
        start = end;
        count += 1;
    }
    Some(count)
}

// Writes our breaks to the front of a list that has room for them, and says how many they are.
fn write_breaks(classes: &[u8], text: &[u8], width: u64, out: &mut [u64]) -> usize
    requires good_classes { GoodClasses classes.now × (length text.now ≤ piece_limit) }
    requires for_classes { ForClasses classes.now (λ (reader : Reader). (breakable reader text.now width ≡ true) × (length (ours reader text.now width) ≤ length out.old)) }
    ensures { ForClasses classes.now (λ (reader : Reader). (out.new ≡ over out.old (ours reader text.now width)) × (result ≡ length (ours reader text.now width))) }
{
    let mut start: usize = 0;
    for i in 0..out.len() {
        if ((text.len() - start) as u64) <= width {
            return i;
        }
        start = last_place(classes, text, start, start + (width as usize));
        out[i] = start as u64;
    }
    out.len()
}

// Whether our breaks are sure to fit a list, told without the text: at a width of 2 or more acceptable breaks exist, and each line but the last
// has at least width - 1 bytes.
fn sure_to_fit(size: usize, width: u64, room: usize) -> bool
    ensures { result ≡ sure_to_fit size width room }
{
    if width < 2 {
        return false;
    }
    (size as u64) / (width - 1) <= (room as u64)
}

// Checks breaks of a text into lines of at most `width` bytes: any numbers may be proposed.
pub fn check_breaks(
    tables: &TableSet,
    text: &[u8],
    width: u64,
    breaks: &[u64],
) -> Result<(), Refusal>
    ensures { result ≡ check_of (page_of tables.now) text.now width breaks.now }
{
    if !codepage::shape::good_shape(tables) {
        return Err(Refusal::BadShape);
    }
    if Run::PIECE_LIMIT < text.len() {
        return Err(Refusal::TooLong);
    }
    if !are_lines(tables.classes, text, width, breaks) {
        return Err(Refusal::NotAcceptable);
    }
    Ok(())
}

// Proposes breaks of a text into lines of at most `width` bytes, each line as long as it can be. Into a list that they are sure to fit
// they are written in one pass. Else a first pass counts them, so that a refused call leaves the list as it was, and a second
// writes them.
pub fn propose_breaks(
    tables: &TableSet,
    text: &[u8],
    width: u64,
    out: &mut [u64],
) -> Result<usize, Refusal>
    ensures { ProposedAs (proposal_of (page_of tables.now) text.now width (length out.old)) result out.old out.new }
{
    if !codepage::shape::good_shape(tables) {
        return Err(Refusal::BadShape);
    }
    if Run::PIECE_LIMIT < text.len() {
        return Err(Refusal::TooLong);
    }
    if sure_to_fit(text.len(), width, out.len()) {
        return Ok(write_breaks(tables.classes, text, width, out));
    }
    let Some(count) = count_breaks(tables.classes, text, width) else {
        return Err(Refusal::NoneExists);
    };
    if out.len() < count {
        return Err(Refusal::ListTooShort);
    }
    Ok(write_breaks(tables.classes, text, width, out))
}

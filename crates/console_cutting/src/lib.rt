// Inner: the console's commands that cut the unit text into fields, by way of a buffer that it holds. (docs/CONSOLE.md, CR 1.)

#![tactic(auto)]

use console_print::Output;
use console_script::state::Console;
use console_script::words::Words;
use fields::{Answer, End, Found, Held, Place, Refusal};

// The most units of the buffer.
const BUFFER_LIMIT: u64 = 300;

// `hold SIZE`: the state is fresh.
pub fn hold(mut words: Words<'_>, console: &mut Console<'_>, out: &mut Output<'_>) -> Option<()> {
    let size = words.number(BUFFER_LIMIT)?;
    words.end()?;
    console.buffer.fill(size as usize);
    console.held = Held::fresh().count;
    out.put(b"hold");
    out.put_number(console.buffer.items().len() as u64);
    out.put_end();
    Some(())
}

// `held COUNT`.
pub fn held(mut words: Words<'_>, console: &mut Console<'_>, out: &mut Output<'_>) -> Option<()> {
    let count = words.number(u64::MAX)?;
    words.end()?;
    console.held = count as usize;
    out.put(b"held");
    out.put_number(count);
    out.put_end();
    Some(())
}

// A space, and what ended a field.
fn put_ending(end: End, out: &mut Output<'_>) {
    match end {
        End::Bar => out.put(b" bar"),
        End::LineFeed => out.put(b" line"),
        End::Text => out.put(b" end"),
    }
}

// A space, and the lent slice that has a field.
fn put_place(place: Place, out: &mut Output<'_>) {
    match place {
        Place::Buffer => out.put(b" hold"),
        Place::Block => out.put(b" block"),
    }
}

// What ended a field, the units read, where it is, and its units.
fn put_found<'a>(found: Found, buffer: &'a [u16], block: &'a [u16], out: &mut Output<'_>) {
    put_ending(found.end, out);
    out.put_number(found.read as u64);
    put_place(found.place, out);
    out.put_run(fields::field(buffer, block, found));
}

// What a call answered, but for the state and the buffer after it.
fn put_answer<'a>(
    answer: Result<Answer, Refusal>,
    buffer: &'a [u16],
    block: &'a [u16],
    out: &mut Output<'_>,
) {
    match answer {
        Ok(Answer::Field(found)) => put_found(found, buffer, block, out),
        Ok(Answer::Incomplete(read)) => {
            out.put(b" held");
            out.put_number(read as u64);
        }
        Err(why) => out.put_number(why.number() as u64),
    }
}

// Cuts the next field from a block.
fn cut(state: &mut Held, buffer: &mut [u16], block: &[u16], is_last: bool, out: &mut Output<'_>) {
    let answer = fields::next_field(state, buffer, block, is_last);
    out.put(b"field");
    put_answer(answer, buffer, block, out);
    out.put_number(state.count as u64);
    out.put_run(buffer);
    out.put_end();
}

// `field FROM COUNT more`.
pub fn field(mut words: Words<'_>, console: &mut Console<'_>, out: &mut Output<'_>) -> Option<()> {
    let block = words.piece(console.units.items())?;
    let is_last = words.is_last()?;
    words.end()?;
    let mut state = Held {
        count: console.held,
    };
    cut(&mut state, console.buffer.items_mut(), block, is_last, out);
    console.held = state.count;
    Some(())
}

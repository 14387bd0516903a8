// The call that cuts a text into fields.
ghost use Rattle.std.specs.Prelude.{◌≡◌};
ghost use Rattle.capi.specs.Cutting.{end_out, place_out, field_out, refused_field, TillCut};

use fields::{Answer, End, Held, Place, Refusal};

// What a call answers. number: 0 a field, 1 no field is complete and the block is held, or that of the refusal. held: for the next
// call. Of a field: its units, where they are (0 the buffer, 1 the block) and what ended it (1 bar, 2 line feed, 3 the text's end).
#[repr(C)]
#[derive(Clone, Copy)]
pub struct TillField {
    pub read: usize,
    pub count: usize,
    pub held: usize,
    pub number: u8,
    pub end: u8,
    pub place: u8,
}

// The number of what ended a field; 0 is left for no field.
fn end_out(end: End) -> u8
    ensures { result ≡ end_out end }
{
    match end {
        End::Bar => 1,
        End::LineFeed => 2,
        End::Text => 3,
    }
}

// The number of the lent slice that a field lies in.
fn place_out(place: Place) -> u8
    ensures { result ≡ place_out place }
{
    match place {
        Place::Buffer => 0,
        Place::Block => 1,
    }
}

// A refusal: nothing is read, and as many units are held as before.
fn refused_field(held: usize, number: u8) -> TillField
    ensures { result ≡ refused_field held number }
{
    TillField {
        read: 0,
        count: 0,
        held,
        number,
        end: 0,
        place: 0,
    }
}

// The answer of a call as numbers, with the units that are held after it.
fn field_out(answer: Result<Answer, Refusal>, held: usize) -> TillField
    ensures { result ≡ field_out answer held }
{
    match answer {
        Ok(Answer::Field(found)) => {
            let last = found.end;
            let here = found.place;
            let end = end_out(last);
            let place = place_out(here);
            TillField {
                read: found.read,
                count: found.count,
                held,
                number: 0,
                end,
                place,
            }
        }
        Ok(Answer::Incomplete(read)) => TillField {
            read,
            count: 0,
            held,
            number: 1,
            end: 0,
            place: 0,
        },
        Err(refusal) => refused_field(held, refusal.number()),
    }
}

// The next field of a text, or the block held. Any mark `last` but 0 is last.
pub fn till_next_field(held: usize, buffer: &mut [u16], block: &[u16], last: u8) -> TillField
    ensures { TillCut held buffer.old block.now last result buffer.new }
{
    let mut state = Held { count: held };
    let answer = fields::next_field(&mut state, buffer, block, crate::is_last(last));
    field_out(answer, state.count)
}

// The units of a decoded block, cut into fields.
use crate::records::Records;
use fields::{Answer, Held};
use tillbox_storage::messages::Reported;

// What is held of a field that was begun in an earlier block, at the front of a buffer.
#[derive(Clone, Copy)]
pub struct Begun {
    pub held: Held,
    buffer: [u16; 256],
}

impl Begun {
    // Nothing is held.
    pub fn nothing() -> Begun {
        Begun {
            held: Held::fresh(),
            buffer: [0; 256],
        }
    }

    // The next field of a block, put into the file, or the whole block held: how many units were read. None where the field has more units
    // than the limit.
    fn cut_next(
        &mut self,
        rest: &[u16],
        last: bool,
        records: &mut Records,
    ) -> Result<Option<usize>, Reported> {
        match fields::next_field(&mut self.held, &mut self.buffer, rest, last) {
            Ok(Answer::Field(found)) => {
                let field = fields::field(&self.buffer, rest, found);
                records.put(field, rfc4180::closes_record(found.end))?;
                Ok(Some(found.read))
            }
            Ok(Answer::Incomplete(read)) => Ok(Some(read)),
            Err(_) => Ok(None),
        }
    }

    // All fields that are complete in a block, put into the file, and the rest of it held. At the end of the text the last one is complete
    // too. Each call but the last one reads a unit. Where a field has more units than the limit, gives how many units stand before it.
    pub fn cut_units(
        &mut self,
        units: &[u16],
        last: bool,
        records: &mut Records,
    ) -> Result<Option<usize>, Reported> {
        let mut at = 0;
        // Kept: a turn moves by the units that it read, so there is no range to go over.
        loop {
            let rest = &units[at..];
            let Some(read) = self.cut_next(rest, last, records)? else {
                return Ok(Some(at));
            };
            if read == 0 || rest.len() <= read {
                return Ok(None);
            }
            at += read;
        }
    }
}

// Inner: writing answers. What does not fit is left out, and an output that was emptied in time has room for every answer.

#![tactic(auto)]

ghost use Rattle.std.specs.Prelude.{◌≡◌, ℕ, List, [], ◌∷◌, ◌<◌};
ghost use Rattle.checkpoint.specs.Line.{hex_byte};
ghost use Rattle.console_print.specs.Prints.{Printed, hex_of_byte, hex_of_unit, hex_run};

use convert::{Direction, Pending, Policy, Run};

// The answers that wait to be written: the room that has them, and the place behind the last.
#[derive(Drop)]
pub struct Output<'a> {
    pub room: &'a mut [u8],
    pub at: usize,
}

// A number that is printed in capital hex digits: a byte as two, a unit as four.
pub trait Hex: Copy {
    ghost spelled: { Self → List ℕ };

    fn put_hex(self, out: &mut Output<'_>)
        ensures { Printed (spelled self) out.old.room.now out.old.at out.new.at out.new.room.now };
}

impl Hex for u8 {
    ghost spelled = { hex_of_byte };

    fn put_hex(self, out: &mut Output<'_>) {
        out.put_byte(hex_digit(self / 16));
        out.put_byte(hex_digit(self % 16));
    }
}

impl Hex for u16 {
    ghost spelled = { hex_of_unit };

    fn put_hex(self, out: &mut Output<'_>) {
        let high = (self / 256) as u8;
        let low = (self % 256) as u8;
        high.put_hex(out);
        low.put_hex(out);
    }
}

// A capital hex digit.
fn hex_digit(value: u8) -> u8
    requires { value < 16 }
    ensures { result ≡ hex_byte value }
{
    if value < 10 {
        return b'0' + value;
    }
    b'A' + (value - 10)
}

impl<'a> Output<'a> {
    // No answer yet.
    pub fn new(room: &'a mut [u8]) -> Output<'a>
        ensures { result.at ≡ 0 }
    {
        Output { room, at: 0 }
    }

    // What was printed.
    pub fn printed(&self) -> &[u8] {
        &self.room[..self.at.min(self.room.len())]
    }

    // A byte.
    fn put_byte(&mut self, byte: u8)
        ensures { Printed (byte ∷ []) self.old.room.now self.old.at self.new.at self.new.room.now }
    {
        if self.at < self.room.len() {
            self.room[self.at] = byte;
            self.at += 1;
        }
    }

    // Some bytes.
    pub fn put(&mut self, bytes: &[u8])
        ensures { Printed bytes.now self.old.room.now self.old.at self.new.at self.new.room.now }
    {
        for byte in bytes {
            self.put_byte(*byte);
        }
    }

    // A decimal number.
    pub fn put_decimal(&mut self, number: u64) {
        let mut digits = [0u8; 20];
        let count = io::decimal(number, &mut digits);
        self.put(&digits[..count]);
    }

    // A space and a decimal number.
    pub fn put_number(&mut self, number: u64) {
        self.put_byte(b' ');
        self.put_decimal(number);
    }

    // A space, and some bytes or units in hex, or `-`.
    pub fn put_run<T: Hex>(&mut self, items: &[T])
        ensures { Printed (hex_run T.spelled items.now) self.old.room.now self.old.at self.new.at self.new.room.now }
    {
        if items.is_empty() {
            self.put(b" -");
            return;
        }
        self.put_byte(b' ');
        for item in items {
            item.put_hex(self);
        }
    }

    // A line feed.
    pub fn put_end(&mut self) {
        self.put_byte(b'\n');
    }

    // A space, and `kept` or `changed`.
    pub fn put_kept(&mut self, kept: bool) {
        self.put(if kept { b" kept" } else { b" changed" });
    }

    // `D` or `E`.
    fn put_direction(&mut self, direction: Direction) {
        match direction {
            Direction::Decoding => self.put_byte(b'D'),
            Direction::Encoding => self.put_byte(b'E'),
        }
    }

    // A space, and the pending byte or unit, or `-`.
    fn put_pending(&mut self, pending: Pending) {
        self.put_byte(b' ');
        match pending {
            Pending::Nothing => self.put_byte(b'-'),
            Pending::Byte(byte) => byte.put_hex(self),
            Pending::High(unit) => unit.put_hex(self),
        }
    }

    // The three digits, each behind a space.
    pub fn put_policy(&mut self, policy: Policy) {
        self.put_number(policy.single as u64);
        self.put_number(policy.pair as u64);
        self.put_number(policy.invalid as u64);
    }

    // A space, the ten words of a run, and the line's end.
    pub fn put_run_line(&mut self, run: Run) {
        self.put_byte(b' ');
        self.put_direction(run.direction);
        self.put_number(run.page as u64);
        self.put_policy(run.policy);
        self.put_pending(run.pending);
        self.put_number(run.flags as u64);
        self.put_number(run.read);
        self.put_number(run.written);
        self.put(if run.ended { b" over\n" } else { b" on\n" });
    }

    // A line that is no command is answered `?`.
    pub fn put_refusal(&mut self) {
        self.put(b"?\n");
    }
}

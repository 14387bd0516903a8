// A unit of input, whose type tells the direction: bytes are decoded, UTF-16 units encoded. What both directions do is written once,
// over `Input`.
ghost use Rattle.std.specs.Prelude.{◌≡◌, true, ℕ, List, map, length};
ghost use Rattle.codepage.specs.CodePage.{page_of, GoodShape};
ghost use Rattle.codepage.specs.Lent.{over};
ghost use Rattle.engine.specs.declared.Direction.{Direction};
ghost use Rattle.engine.specs.declared.Direction.TheVariants.{Decoding, Encoding};
ghost use Rattle.engine.specs.Converters.{by_bytes, by_units};
ghost use Rattle.engine.specs.Engine.{converter_of};
ghost use Rattle.engine.specs.Policies.{policy_allowed};
ghost use Rattle.engine.specs.Steps.{summary};
ghost use Rattle.convert.specs.Calls.{pending_as, refusal, fed_by};
ghost use Rattle.std.proofs.lemmas.List.{map-id};

use crate::{Pending, Run};
use codepage::TableSet;
use codepage_lookup::tables::{ByteTables, UnitTables};
use engine::converters::{ByteConverter, UnitConverter};
use engine::progress::Progress;
use engine::{Direction, Policy};
use engine_loops::{decoder, encoder};

// What a run takes in, and gives.
pub trait Input: Copy + Drop {
    // The units of output.
    type Output: Copy;

    // The direction that takes these units.
    ghost direction: { Direction };

    // A unit of input as a number, and a unit of output.
    ghost unit: { Self → ℕ };

    ghost output: { Self.Output → ℕ };

    // Units of input as numbers, and units of output.
    ghost units: { List Self → List ℕ };

    ghost written: { List Self.Output → List ℕ };

    fn direction() -> Direction
        ensures { result ≡ direction };

    // The unit as what is pending.
    fn pending(self) -> Pending
        ensures { result ≡ pending_as direction (unit self) };

    // Takes the codes of what is pending and the piece while they fit, in a call that no check refuses.
    fn feed(
        run: Run,
        tables: &TableSet,
        piece: &[Self],
        last: bool,
        out: &mut [Self::Output],
    ) -> Progress
        requires accepted { refusal direction run (page_of tables.now) (length (units piece.now)) ≡ 0 }
        ensures value { result ≡ summary (fed_by direction run (page_of tables.now) (units piece.now) last (length (written out.old))) }
        ensures out_after { written out.new ≡ over (written out.old) (fed_by direction run (page_of tables.now) (units piece.now) last (length (written out.old))).output };

    ghost each_unit: { (l : List Self) → map unit l ≡ units l };

    ghost each_output: { (l : List Self.Output) → map output l ≡ written l };
}

impl Input for u8 {
    type Output = u16;

    ghost direction = { Decoding };

    ghost unit = { λ a. a };

    ghost output = { λ a. a };

    ghost units = { λ l. l };

    ghost written = { λ l. l };

    ghost each_unit = { λ l. map-id l };

    ghost each_output = { λ l. map-id l };

    fn direction() -> Direction {
        Direction::Decoding
    }

    fn pending(self) -> Pending {
        Pending::Byte(self)
    }

    fn feed(run: Run, tables: &TableSet, piece: &[u8], last: bool, out: &mut [u16]) -> Progress {
        let converter = byte_converter(run.policy, tables);
        decoder::decode_loop(&converter, run.pending.byte(), piece, last, out)
    }
}

impl Input for u16 {
    type Output = u8;

    ghost direction = { Encoding };

    ghost unit = { λ a. a };

    ghost output = { λ a. a };

    ghost units = { λ l. l };

    ghost written = { λ l. l };

    ghost each_unit = { λ l. map-id l };

    ghost each_output = { λ l. map-id l };

    fn direction() -> Direction {
        Direction::Encoding
    }

    fn pending(self) -> Pending {
        Pending::High(self)
    }

    fn feed(run: Run, tables: &TableSet, piece: &[u16], last: bool, out: &mut [u8]) -> Progress {
        let converter = unit_converter(run.policy, tables);
        encoder::encode_loop(&converter, run.pending.high(), piece, last, out)
    }
}

// What bytes mean under a policy.
pub fn byte_converter<'a>(policy: Policy, tables: &TableSet<'a>) -> ByteConverter<'a>
    requires { GoodShape (page_of tables.now) }
    ensures converts { by_bytes result ≡ converter_of Decoding (page_of tables.now) policy }
    ensures classes { result.tables.classes.now ≡ tables.now.classes.now }
{
    let bytes = ByteTables {
        classes: tables.classes,
        singles: tables.singles,
        pairs: tables.pairs,
    };
    ByteConverter {
        tables: bytes,
        policy,
        default: tables.numbers.default_unit,
    }
}

// What units mean under a policy.
pub fn unit_converter<'a>(policy: Policy, tables: &TableSet<'a>) -> UnitConverter<'a>
    requires good { GoodShape (page_of tables.now) }
    requires allowed { policy_allowed Encoding policy ≡ true }
    ensures { by_units result ≡ converter_of Encoding (page_of tables.now) policy }
{
    // A default of its own, not the default unit's low half.
    let default = tables.numbers.default_byte;
    let units = UnitTables {
        index: tables.index,
        blocks: tables.blocks,
    };
    UnitConverter {
        tables: units,
        policy,
        default,
    }
}

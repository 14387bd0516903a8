// What a whole text needs beside a run call, for each unit of input.
ghost use Rattle.std.specs.Prelude.{◌≡◌, length};
ghost use Rattle.codepage.specs.CodePage.{page_of};
ghost use Rattle.codepage.specs.Lent.{over};
ghost use Rattle.engine.specs.Engine.{limit, endless};
ghost use Rattle.engine.specs.Steps.{summary};
ghost use Rattle.oneshot.specs.Texts.{text_refusal, text_fed};

use codepage::TableSet;
use convert::{Input, Policy};
use engine::progress::Progress;
use engine_loops::{counter, decoder, encoder};

// A unit of a text.
pub trait Text: Input {
    // Converts a text that no check refuses, as one piece that ends it.
    fn convert(
        policy: Policy,
        tables: &TableSet,
        text: &[Self],
        out: &mut [Self::Output],
    ) -> Progress
        requires accepted { text_refusal Self.direction policy (page_of tables.now) (length (Self.units text.now)) ≡ 0 }
        ensures value { result ≡ summary (text_fed Self.direction policy (page_of tables.now) (limit (length (Self.written out.old))) (Self.units text.now)) }
        ensures out_after { Self.written out.new ≡ over (Self.written out.old) (text_fed Self.direction policy (page_of tables.now) (limit (length (Self.written out.old))) (Self.units text.now)).output };

    // What converting such a text would give in numbers, with room for all.
    fn count(policy: Policy, tables: &TableSet, text: &[Self]) -> Progress
        requires accepted { text_refusal Self.direction policy (page_of tables.now) (length (Self.units text.now)) ≡ 0 }
        ensures { result ≡ summary (text_fed Self.direction policy (page_of tables.now) endless (Self.units text.now)) };
}

impl Text for u8 {
    fn convert(policy: Policy, tables: &TableSet, text: &[u8], out: &mut [u16]) -> Progress {
        let converter = convert::byte_converter(policy, tables);
        decoder::decode_loop(&converter, None, text, true, out)
    }

    fn count(policy: Policy, tables: &TableSet, text: &[u8]) -> Progress {
        let converter = convert::byte_converter(policy, tables);
        counter::count_decoded(&converter, text)
    }
}

impl Text for u16 {
    fn convert(policy: Policy, tables: &TableSet, text: &[u16], out: &mut [u8]) -> Progress {
        let converter = convert::unit_converter(policy, tables);
        encoder::encode_whole(&converter, text, out)
    }

    fn count(policy: Policy, tables: &TableSet, text: &[u16]) -> Progress {
        let converter = convert::unit_converter(policy, tables);
        counter::count_encoded(&converter, text)
    }
}

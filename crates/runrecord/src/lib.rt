// The run call over one run record, which is updated where it stands. (Document 02, CR 13; docs/RULES.md, "A call of a run".)
//
// `call_here` is `convert::call` with the run lent instead of given and given back: same answer, same output, and the record holds
// the new run. A refused call leaves in the record what it held. The two forms may be mixed in one run. A piece of bytes is decoded, a
// piece of units encoded.
//
//     let mut run = ..;                        // Run::start(Direction::Decoding, tables.numbers.page, Policy::standard())?
//     let here = runrecord::call_here(&mut run, &tables, piece, last, out);
//
// `call_through` is the by-value call again, made through the record form: for callers that hold no record.

#![tactic(auto)]

ghost use Rattle.std.specs.Prelude.{◌≡◌, ℕ, length};
ghost use Rattle.codepage.specs.CodePage.{page_of};
ghost use Rattle.convert.specs.Calls.{run_call, Answered};
ghost use Rattle.runrecord.specs.Records.{outcome_of};

use codepage::TableSet;
use convert::{Answer, Input, Outcome, Run};

// The result of a call on a run record: the answer, the units of the piece read, and the units of output written. The new run is in
// the record.
#[derive(Clone, Copy)]
pub struct Here {
    pub answer: Answer,
    pub read: usize,
    pub written: usize,
}

// One call of the run in a record.
pub fn call_here<I: Input>(
    run: &mut Run,
    tables: &TableSet,
    piece: &[I],
    last: bool,
    out: &mut [I::Output],
) -> Here
    ensures { Answered (run_call I.direction run.old (page_of tables.now) (I.units piece.now) last (length (I.written out.old))) (outcome_of result run.new) (I.written out.old) (I.written out.new) }
{
    let outcome = convert::call(*run, tables, piece, last, out);
    *run = outcome.run;
    Here {
        answer: outcome.answer,
        read: outcome.read,
        written: outcome.written,
    }
}

// The same as `convert::call`, made through the record form: the run is put into a record of its own, which is lent.
pub fn call_through<I: Input>(
    run: Run,
    tables: &TableSet,
    piece: &[I],
    last: bool,
    out: &mut [I::Output],
) -> Outcome
    ensures { Answered (run_call I.direction run (page_of tables.now) (I.units piece.now) last (length (I.written out.old))) result (I.written out.old) (I.written out.new) }
{
    let mut held = run;
    let here = call_here(&mut held, tables, piece, last, out);
    Outcome {
        answer: here.answer,
        read: here.read,
        written: here.written,
        run: held,
    }
}

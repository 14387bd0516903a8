// What is said at the end of an import.
use crate::records::Progress;
use tillbox_jobs::blocks::Turn;
use tillbox_jobs::report;
use tillbox_storage::messages::{refuse, say, say_number};

// The record and the field at hand, counted from 1.
fn say_at_hand(progress: Progress) {
    say(b"record ");
    say_number(progress.records.saturating_add(1));
    say(b", field ");
    say_number(progress.inside.saturating_add(1));
}

// A field that has too many units: which one, from which byte its first unit over the limit is read, and what to do.
pub fn too_long(place: u64, progress: Progress, input: &[u8]) {
    refuse(fields::Refusal::FieldTooLong.number(), input);
    say(b"  ");
    say_at_hand(progress);
    say(b": its 257th unit is read from the byte at ");
    say_number(place);
    say(b" of the journal, counted from 0\n");
    say(
        b"  A bar or a line feed is missing before it, or the table is not this journal's. Mend the journal or\n",
    );
    say(b"  name its table, and import it again.\n");
}

// What was read, and what stands in the file.
pub fn summary(turn: Turn, progress: Progress) {
    say(b"tillbox: read ");
    say_number(turn.run.read);
    say(b" bytes, written ");
    say_number(progress.records);
    say(b" records with ");
    say_number(progress.fields);
    say(b" fields\n");
    report::say_flags(turn.run.flags);
    report::say_kinds(turn.kinds);
}

// Where a run was stopped by its policy: the record at hand is not in the file.
pub fn stopped(turn: Turn, progress: Progress) {
    say(b"tillbox: stopped by policy ");
    report::say_policy(turn.run.policy);
    say(b" in ");
    say_at_hand(progress);
    say(b",");
    report::say_place(turn.run, turn.stop);
    report::say_way_on();
}

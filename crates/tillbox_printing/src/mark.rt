// A byte order mark at the front of a ledger.
use convert::Run;
use tillbox_storage::messages;

// Says so where a ledger begins with a byte order mark: it is a character of the text like any other.
pub fn note_mark(run: Run, units: &[u16]) {
    if run.read == 0 && units.first() == Some(&0xFEFF) {
        messages::say(
            b"tillbox: note: the ledger begins with a byte order mark (FEFF), which is encoded as a character\n",
        );
    }
}

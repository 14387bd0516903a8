// What can be called.
use tillbox_storage::messages::Stream;

// What is told of all commands.
pub fn put() {
    Stream::Out.put(
        b"tillbox converts a till's journal to UTF-16LE and back, imports its records, tells why a flag is\n\
up, previews receipts, spells names and lists tables for an editor.\n\n",
    );
    put_commands();
    put_words();
    put_import();
    put_why();
    put_preview();
    put_spelling();
    put_listings();
    put_checkpoints();
    put_ending();
}

// Which rules the program has.
pub fn put_version() {
    Stream::Out.put(
        b"tillbox, by document 01 with the change requests 1, 2, 3, 4, 5, 6, 7, 8, 10 and 12\n",
    );
}

// The commands, a line each.
fn put_commands() {
    Stream::Out.put(
        b"  tillbox decode [last] [policy DDD] TABLE JOURNAL LEDGER [CHECKPOINT]\n\
\x20\x20tillbox encode [last] [policy DDD] TABLE LEDGER RECEIPT [CHECKPOINT]\n\
\x20\x20tillbox import [policy DDD] TABLE JOURNAL RECORDS\n\
\x20\x20tillbox why [policy DDD] [context] TABLE JOURNAL\n\
\x20\x20tillbox preview [width N] TABLE LEDGER RECEIPT\n\
\x20\x20tillbox spell TABLE NAMES SPELLINGS\n\
\x20\x20tillbox shape TABLE\n\
\x20\x20tillbox listing TABLE LISTING\n\
\x20\x20tillbox table LISTING TABLE\n\
\x20\x20tillbox help, --version\n\n",
    );
}

// The files, and what the digits of a policy do.
fn put_words() {
    Stream::Out.put(
        b"TABLE is a table image. JOURNAL, RECEIPT, NAMES and SPELLINGS are till bytes, LEDGER is UTF-16LE.\n\
decode goes from JOURNAL to LEDGER, encode from LEDGER to RECEIPT.\n\
policy DDD: what is done with undefined singles, undefined pairs and invalid codes. The standard is 550:\n\
it stops at an invalid code. 555 replaces it and gets through; import, why and preview use it.\n\
\x20\x200 stop, 1 skip, 2 NUL, 3 '?', 4 '_', 5 the default of the table, 6 F100 and the byte (first digit, decode).\n\n",
    );
}

// What an import makes, and where it ends.
fn put_import() {
    Stream::Out.put(
        b"import reads the whole JOURNAL, cuts it at bars and line feeds, and makes RECORDS anew: a CSV file for a\n\
spreadsheet (UTF-16LE with its mark; a line feed closes a record). A field has at most 256 units. Where a\n\
longer one, or a digit 0, ends the import, the records before it are whole in RECORDS. Its policy is 555\n\
if none is named.\n\n",
    );
}

// What is told of a journal, and where that ends.
fn put_why() {
    Stream::Out.put(
        b"why reads the whole JOURNAL and writes a line on standard output for each code without a character: its place, from 0,\n\
its kind, its bytes in hex, and what the policy does with it. With context the line of JOURNAL around it follows, as\n\
UTF-8, its bytes in brackets. Its policy is 555 if none is named; a digit 0 ends it.\n\n",
    );
}

// What a preview makes.
fn put_preview() {
    Stream::Out.put(
        b"preview encodes the whole LEDGER under 555 into the bytes that the printer would get, and says how many\n\
characters were replaced. With width N its lines are broken to printed lines of at most N bytes, no character is\n\
cut, and each is closed by a line feed.\n\n",
    );
}

// What a spelling makes.
fn put_spelling() {
    Stream::Out.put(
        b"spell makes SPELLINGS anew from NAMES, one name a line: each code is written as the one that the table gives its\n\
character, so that equal names are equal bytes. A line with a code that has no such spelling, or with over 65,536\n\
bytes, is told with its number, from 1, and copied as it is.\n\n",
    );
}

// What a listing is, and what is made of it.
fn put_listings() {
    Stream::Out.put(
        b"listing makes LISTING anew from TABLE, a text for an editor: one record a line, a letter and fields parted by\n\
tabs, in capital hex. table reads such a listing and replaces TABLE, once every line was accepted. A line that is\n\
refused is told with its number, from 1, and what is wrong with it; then TABLE is as it was.\n\n",
    );
}

// What a checkpoint is for, and the word `last`.
fn put_checkpoints() {
    Stream::Out.put(
        b"Without CHECKPOINT the end of the input is the end of the text, and the output is made anew.\n\
With it the run goes on from the line in that file, if there is one. The line is replaced after every 128\n\
blocks of 512, but once a second where they come faster, and at the end, when the output is safely written:\n\
a job that was cut or killed is called again. The word last says that the input is complete; without it a\n\
first half of a character waits in the checkpoint.\n\n",
    );
}

// Where messages go, and the last word.
fn put_ending() {
    Stream::Out.put(
        b"The summary and errors go to standard error. The last line of standard output is one word:\n\
done (all is read), stopped (by a digit 0: the place is said) or failed (the reason was said).\n\
The exit status is 0 done, 1 failed, 2 stopped, 64 wrong words.\n",
    );
}

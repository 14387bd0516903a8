// The output, gathered and written.
use console_print::Output;

// Standard output's descriptor.
const STDOUT_FILENO: i32 = 1;

// An output with more than this is written before the next command: no answer is longer than the rest.
const OUT_LIMIT: usize = 300000;

// Writes the output if it has much, or if the next line waits for more input.
pub fn flush(out: &mut Output<'_>, is_waiting: bool) {
    let limit = if is_waiting { 0 } else { OUT_LIMIT };
    if out.at <= limit {
        return;
    }
    io::write_all(STDOUT_FILENO, out.printed());
    out.at = 0;
}

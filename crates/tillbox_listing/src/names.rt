// The names of the two files: each of a file that can be read or written, and not both of one file.
use tillbox_storage::messages::Reported;
use tillbox_storage::names::{check_apart, check_output, check_plain, check_replaced, with_beside};

// Looks whether a table image can be read and a listing be made. Where it is not so, that was said.
pub fn can_list(rt: &HostRuntime, table: &[u8], listing: &[u8]) -> Result<(), Reported> {
    check_plain(rt, table)?;
    check_output(rt, listing)?;
    check_apart(rt, listing, table)
}

// Looks whether the file beside a table image is another one than the listing.
fn beside_apart(rt: &HostRuntime, fresh: &[u8], listing: &[u8]) -> Result<(), Reported> {
    check_replaced(rt, fresh)?;
    check_apart(rt, fresh, listing)
}

// Looks whether a listing can be read and a table image be replaced. Where it is not so, that was said.
pub fn can_replace(rt: &HostRuntime, listing: &[u8], table: &[u8]) -> Result<(), Reported> {
    check_plain(rt, listing)?;
    check_replaced(rt, table)?;
    check_apart(rt, table, listing)?;
    with_beside(table, b".new", |fresh| beside_apart(rt, fresh, listing))
}

// The table set whose parts C hands over one by one.
ghost use Rattle.std.specs.Prelude.{◌≡◌};
ghost use Rattle.codepage.specs.CodePage.{page_of};
ghost use Rattle.capi.specs.Interface.{till_page};

use codepage::{Numbers, TableSet};

// Three numbers and five tables as one value.
pub fn table_set<'a>(
    page: u16,
    default_byte: u8,
    default_unit: u16,
    classes: &'a [u8],
    singles: &'a [u16],
    pairs: &'a [u16],
    index: &'a [u8],
    blocks: &'a [u16],
) -> TableSet<'a>
    ensures { page_of result ≡ till_page page default_byte default_unit classes.now singles.now pairs.now index.now blocks.now }
{
    TableSet {
        numbers: Numbers {
            page,
            default_byte,
            default_unit,
        },
        classes,
        singles,
        pairs,
        index,
        blocks,
    }
}

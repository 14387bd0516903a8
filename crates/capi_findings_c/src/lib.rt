// The exported call of findings: it is the call of the same name of the library `capi_findings`, whose clauses it states again.
// include/till.h is the header; tools/build_c.sh writes the archive.

#![tactic(auto)]

ghost use Rattle.capi.specs.Interface.{till_page};
ghost use Rattle.capi_findings.specs.Findings.{TillListed};
ghost use Rattle.engine.specs.Policies.{digits};
ghost use Rattle.findings.specs.Calls.{findings_call};

use capi_findings::TillFindings;
use findings::Finding;

// Lists the findings of a text, as many as fit at the front of the list.
#[unsafe(no_mangle)]
pub extern "C" fn till_findings(
    single: u8,
    pair: u8,
    invalid: u8,
    page: u16,
    default_byte: u8,
    default_unit: u16,
    classes: &[u8],
    singles: &[u16],
    pairs: &[u16],
    index: &[u8],
    blocks: &[u16],
    text: &[u8],
    list: &mut [Finding],
) -> TillFindings
    ensures { TillListed (findings_call (digits single pair invalid) (till_page page default_byte default_unit classes.now singles.now pairs.now index.now blocks.now) text.now) result list.old list.new }
{
    capi_findings::till_findings(
        single,
        pair,
        invalid,
        page,
        default_byte,
        default_unit,
        classes,
        singles,
        pairs,
        index,
        blocks,
        text,
        list,
    )
}

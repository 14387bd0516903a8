// The C interface of findings (CR 7): the call that `capi_findings_c` exports. include/till.h is its header; tools/build_c.sh writes
// the archive.

#![tactic(auto)]

ghost use Rattle.std.specs.Prelude.{◌≡◌};
ghost use Rattle.engine.specs.Policies.{digits};
ghost use Rattle.findings.specs.Calls.{findings_call};
ghost use Rattle.capi.specs.Interface.{till_page};
ghost use Rattle.capi_findings.specs.Findings.{findings_out, TillListed};

use engine::Policy;
use findings::{Finding, Refusal};

// What the call answers. number: 0, or that of the refusal. count: how many findings there are, whatever the list's length.
#[repr(C)]
#[derive(Clone, Copy)]
pub struct TillFindings {
    pub count: usize,
    pub number: u8,
}

impl From<Result<usize, Refusal>> for TillFindings {
    ghost from_gives = { λ answer r. r ≡ findings_out answer };

    // The answer as numbers.
    fn from(answer: Result<usize, Refusal>) -> TillFindings {
        match answer {
            Ok(count) => TillFindings { count, number: 0 },
            Err(why) => TillFindings {
                count: 0,
                number: why.number(),
            },
        }
    }
}

// Lists the findings of a text, as many as fit at the front of the list.
pub fn till_findings(
    single: u8,
    pair: u8,
    invalid: u8,
    page: u16,
    default_byte: u8,
    default_unit: u16,
    classes: &[u8],
    singles: &[u16],
    pairs: &[u16],
    index: &[u8],
    blocks: &[u16],
    text: &[u8],
    list: &mut [Finding],
) -> TillFindings
    ensures { TillListed (findings_call (digits single pair invalid) (till_page page default_byte default_unit classes.now singles.now pairs.now index.now blocks.now) text.now) result list.old list.new }
{
    let policy = Policy {
        single,
        pair,
        invalid,
    };
    let tables = capi::tables::table_set(
        page,
        default_byte,
        default_unit,
        classes,
        singles,
        pairs,
        index,
        blocks,
    );
    let answer = findings::list_findings(policy, &tables, text, list);
    TillFindings::from(answer)
}

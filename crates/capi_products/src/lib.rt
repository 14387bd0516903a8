// The C interface of the products: breaks of a text into lines (CR 12), the index of a journal (CR 11), the standard spelling (CR 8), and
// encoding inside one buffer (CR 9), in calls that `capi_products_c` exports. include/till.h is its header; tools/build_c.sh writes the
// archive.

#![tactic(auto)]

pub mod buffer;
pub mod index;
pub mod lines;
pub mod names;

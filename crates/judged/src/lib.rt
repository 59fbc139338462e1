// What the comparison with the original and the records drive besides the C interface: calls that take tables of any size and policies of
// any ranges.
#![tactic(auto)]

pub mod compares;
pub mod cursors;
pub mod manifests;
pub mod policies;
pub mod rows;
pub mod words;

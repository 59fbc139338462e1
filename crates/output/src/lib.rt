// What is put into a lent buffer: bytes one after another, and cells as bytes.
#![tactic(auto)]

pub mod bytes;
pub mod cells;

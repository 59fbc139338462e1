// The C interface: byte slices and numbers in, structs of numbers out. Each call is total, and each is a thin call of the port.
#![tactic(auto)]

pub mod check;
pub mod cursor;
pub mod interface;
pub mod lists;
pub mod policies;
pub mod strictly;

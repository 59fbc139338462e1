// Answers as structs of numbers, for the C interface and for the comparison with the original: number and place first, and all the rest
// zero on a refusal.
#![tactic(auto)]

pub mod answers;
pub mod check;
pub mod cursor;
pub mod policies;

// What a file or a text holds, as cells in one lent buffer, with the answer in a struct of numbers.
#![tactic(auto)]

pub mod comparison;
mod lists;
pub mod manifests;
pub mod modules;
pub mod tokens;

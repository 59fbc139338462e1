// policy.rs: the domains that a module and a manifest ask for, as two columns: the domain, and the row that asks. The columns stay two
// parameters: over a struct of both each function would owe a second clause, that it keeps both references (tried).
#![tactic(auto)]

pub mod manifest;
pub mod module;

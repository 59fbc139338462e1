// Texts as bytes: UTF-8, White_Space, lines, pieces, searching and comparing. docs/RULES.md, "Texts".
#![tactic(auto)]

pub mod find;
pub mod lines;
pub mod order;
pub mod pieces;
pub mod utf8;
pub mod white;

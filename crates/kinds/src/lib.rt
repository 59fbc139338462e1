// wasm.rs: kinds of imports and exports, and the names of sections.
#![tactic(auto)]

ghost use Rattle.std.specs.Prelude.{◌≡◌, ◌<◌};
ghost use Rattle.refusal.specs.Slug.{slug_of};
ghost use Rattle.kinds.specs.Kinds.{kind_of, kind_byte, kind_word, hex_of, hex_byte, section_word};

use refusal::{Slug, slug_of};

#[derive(Clone, Copy)]
pub enum ExternalKind {
    Func,
    Table,
    Memory,
    Global,
    Other(u8),
}

// By name and no `From`, and so `kind_byte`: the calls that the judge makes go by these names, and what they promise too.
#[tactic(auto, unfolding(crate::specs::Kinds::kind_of))]
pub fn kind_of(b: u8) -> ExternalKind
    ensures { result ≡ kind_of b }
{
    match b {
        0 => ExternalKind::Func,
        1 => ExternalKind::Table,
        2 => ExternalKind::Memory,
        3 => ExternalKind::Global,
        _ => ExternalKind::Other(b),
    }
}

pub fn kind_byte(k: ExternalKind) -> u8
    ensures { result ≡ kind_byte k }
{
    match k {
        ExternalKind::Func => 0,
        ExternalKind::Table => 1,
        ExternalKind::Memory => 2,
        ExternalKind::Global => 3,
        ExternalKind::Other(b) => b,
    }
}

// A digit of base sixteen, in lower case.
fn digit(n: u8) -> u8
    requires { n < 16 }
    ensures { result ≡ hex_of n }
{
    if n < 10 { b'0' + n } else { b'a' + (n - 10) }
}

// The two digits of a byte.
pub fn hex(b: u8) -> [u8; 2]
    ensures { result ≡ hex_byte b }
{
    [digit(b / 16), digit(b % 16)]
}

pub fn kind_slug(k: ExternalKind) -> Slug
    ensures { result ≡ slug_of (kind_word k) }
{
    match k {
        ExternalKind::Func => slug_of(b"func"),
        ExternalKind::Table => slug_of(b"table"),
        ExternalKind::Memory => slug_of(b"memory"),
        ExternalKind::Global => slug_of(b"global"),
        ExternalKind::Other(b) => {
            let [high, low] = hex(b);
            slug_of(&[b'o', b't', b'h', b'e', b'r', b':', b'0', b'x', high, low])
        }
    }
}

#[tactic(auto, using(crate::proofs::Words::no_word), unfolding(crate::specs::Kinds::section_word, crate::specs::Kinds::section_words))]
pub fn section_name(id: u8) -> Slug
    ensures { result ≡ slug_of (section_word id) }
{
    match id {
        0 => slug_of(b"custom"),
        1 => slug_of(b"type"),
        2 => slug_of(b"import"),
        3 => slug_of(b"function"),
        4 => slug_of(b"table"),
        5 => slug_of(b"memory"),
        6 => slug_of(b"global"),
        7 => slug_of(b"export"),
        8 => slug_of(b"start"),
        9 => slug_of(b"element"),
        10 => slug_of(b"code"),
        11 => slug_of(b"data"),
        12 => slug_of(b"data-count"),
        13 => slug_of(b"tag"),
        _ => slug_of(b"unknown"),
    }
}

// The capability domains, and the words for them: of the original's policy.rs.
#![tactic(auto)]

pub mod classify;

ghost use Rattle.std.specs.Prelude.{◌≡◌};
ghost use Rattle.refusal.specs.Slug.{slug_of};
ghost use Rattle.domains.specs.Domain.{domain_number, found, numbered, slug, domain_of, word_in, table_words};

use refusal::{Slug, slug_of};
use text::order::equal;

#[derive(Clone, Copy)]
pub enum Domain {
    Filesystem = 0,
    Environment = 1,
    Clock = 2,
    Network = 3,
    Random = 4,
    Stdio = 5,
    Unknown = 6,
}

// The number of the last domain.
pub const LAST_DOMAIN: usize = Domain::Unknown as usize;

// By name and no `From`, and so `domain_of`: the calls that the judge makes go by these names, and what they promise too.
pub fn domain_number(d: Domain) -> usize
    ensures { result ≡ domain_number d }
{
    d as usize
}

#[tactic(auto, using(crate::proofs::DomainLaws::numbered_past), unfolding(crate::specs::Domain::numbered))]
pub fn domain_of(n: usize) -> Option<Domain>
    ensures { found result ≡ numbered n }
{
    match n {
        0 => Some(Domain::Filesystem),
        1 => Some(Domain::Environment),
        2 => Some(Domain::Clock),
        3 => Some(Domain::Network),
        4 => Some(Domain::Random),
        5 => Some(Domain::Stdio),
        6 => Some(Domain::Unknown),
        _ => None,
    }
}

#[tactic(auto, unfolding(crate::specs::Domain::slug, crate::specs::Domain::slugs))]
pub fn domain_slug(d: Domain) -> Slug
    ensures { result ≡ slug_of (slug (domain_number d)) }
{
    match d {
        Domain::Filesystem => slug_of(b"fs"),
        Domain::Environment => slug_of(b"env"),
        Domain::Clock => slug_of(b"clock"),
        Domain::Network => slug_of(b"network"),
        Domain::Random => slug_of(b"random"),
        Domain::Stdio => slug_of(b"stdio"),
        Domain::Unknown => slug_of(b"unknown"),
    }
}

// Each word for a domain: the slugs, then the aliases `net` and `rand`.
const WORDS: [(&[u8], Domain); 9] = [
    (b"fs", Domain::Filesystem),
    (b"env", Domain::Environment),
    (b"clock", Domain::Clock),
    (b"network", Domain::Network),
    (b"random", Domain::Random),
    (b"stdio", Domain::Stdio),
    (b"unknown", Domain::Unknown),
    (b"net", Domain::Network),
    (b"rand", Domain::Random),
];

// The domain beside the first word that is the text. No `match` on the text: one was tried, and the proofs of its fifty ends did not close.
pub(crate) fn lookup(table: &[(&[u8], Domain)], s: &[u8]) -> Option<Domain>
    ensures { found result ≡ word_in (table_words table.now) s.now }
{
    for (word, domain) in table {
        if equal(s, word) {
            return Some(*domain);
        }
    }
    None
}

// The domain that a word names.
#[tactic(auto, unfolding(crate::specs::Domain::domain_of, crate::specs::Domain::words))]
pub fn from_slug(s: &[u8]) -> Option<Domain>
    ensures { found result ≡ domain_of s.now }
{
    lookup(&WORDS, s)
}

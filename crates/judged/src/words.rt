// Kinds, sections, changes and domains by their words.
ghost use Rattle.std.specs.Prelude.{◌≡◌};
ghost use Rattle.refusal.specs.Slug.{slug_of};
ghost use Rattle.domains.specs.Domain.{domain_of};
ghost use Rattle.kinds.specs.Kinds.{kind_of, kind_byte, kind_word, section_word};
ghost use Rattle.differences.specs.Rank.{change_word};
ghost use Rattle.judged.specs.Compares.{change_at, word_told};
ghost use Rattle.judged.specs.Words.{perhaps_number, domain_told};

use crate::compares::{NameTold, change_of, name_of};
use domains::{domain_number, domain_of};
use refusal::Slug;

fn word_of(word: Slug, k: usize) -> NameTold
    ensures { result ≡ word_told word k }
{
    let bytes = word.bytes;
    name_of(table::range(&bytes, 0, word.len), k)
}

// Of the word of a kind byte, byte k.
pub fn judged_kind(b: u8, k: usize) -> NameTold
    ensures { result ≡ word_told (slug_of (kind_word (kind_of b))) k }
{
    word_of(kinds::kind_slug(kinds::kind_of(b)), k)
}

pub fn judged_kind_byte(b: u8) -> u8
    ensures { result ≡ kind_byte (kind_of b) }
{
    kinds::kind_byte(kinds::kind_of(b))
}

pub fn judged_section(id: u8, k: usize) -> NameTold
    ensures { result ≡ word_told (slug_of (section_word id)) k }
{
    word_of(kinds::section_name(id), k)
}

pub fn judged_change(change: usize, k: usize) -> NameTold
    ensures { result ≡ word_told (slug_of (change_word (change_at change))) k }
{
    word_of(differences::change_slug(change_of(change)), k)
}

// The domain that a word names, by its number; 7 where it names none.
pub fn judged_slug(word: &[u8]) -> usize
    ensures { result ≡ perhaps_number (domain_of word.now) }
{
    match domains::from_slug(word) {
        Some(d) => domain_number(d),
        None => 7,
    }
}

// Of the word of a domain, byte k; a number above 6 has no word.
pub fn judged_domain(domain: usize, k: usize) -> NameTold
    ensures { result ≡ domain_told domain k }
{
    match domain_of(domain) {
        Some(d) => word_of(domains::domain_slug(d), k),
        None => NameTold { len: 0, byte: 0 },
    }
}

// The numbered answers of docs/RULES.md, and the small values that every crate hands around.
#![tactic(auto)]

ghost use Rattle.std.specs.Prelude.{◌≡◌};
ghost use Rattle.refusal.specs.Said.{number_of, place_of, beside_of, further, moved_on};
ghost use Rattle.refusal.specs.Slug.{slug_of};
ghost use Rattle.refusal.specs.Sizes.{fits_in};

// How many bytes a module's file and a text may have; more are 14. specs/Sizes.antt has the same numbers.
pub const MAX_FILE: usize = 16777216;

pub const MAX_TEXT: usize = 65536;

// Why a call gave no answer, and where: a case for each number, 1 to 20 in this order. 3 is no refusal's number. 5 has the kind byte and,
// beside it, the offset of that byte.
#[derive(Clone, Copy)]
pub enum Refusal {
    UnexpectedEof(usize),
    BadMagic(usize),
    BadUtf8(usize),
    MalformedSection(usize, usize),
    Directive(usize),
    BadDefault(usize),
    BadDomain(usize),
    PackageInWorld(usize),
    NoName(usize),
    Unmatched(usize),
    Outside(usize),
    Full(usize),
    TooLong,
    BadTable(usize),
    NoRoom(usize),
    TooManyBytes(usize),
    TenthByte(usize),
    AboveU32(usize),
    NotStrict(usize),
}

// A range of bytes.
#[derive(Clone, Copy)]
pub struct Part {
    pub from: usize,
    pub len: usize,
}

// The most bytes of a short word.
const SLUG_BYTES: usize = 10;

// A short word by value: its bytes, then zeros.
#[derive(Clone, Copy)]
pub struct Slug {
    pub bytes: [u8; SLUG_BYTES],
    pub len: usize,
}

// A range lies in so many bytes.
pub fn fits(length: usize, from: usize, len: usize) -> bool
    ensures { result ≡ fits_in length from len }
{
    if length < len {
        return false;
    }
    from <= length - len
}

pub fn number(r: Refusal) -> u32
    ensures { result ≡ number_of r }
{
    match r {
        Refusal::UnexpectedEof(_) => 1,
        Refusal::BadMagic(_) => 2,
        Refusal::BadUtf8(_) => 4,
        Refusal::MalformedSection(_, _) => 5,
        Refusal::Directive(_) => 6,
        Refusal::BadDefault(_) => 7,
        Refusal::BadDomain(_) => 8,
        Refusal::PackageInWorld(_) => 9,
        Refusal::NoName(_) => 10,
        Refusal::Unmatched(_) => 11,
        Refusal::Outside(_) => 12,
        Refusal::Full(_) => 13,
        Refusal::TooLong => 14,
        Refusal::BadTable(_) => 15,
        Refusal::NoRoom(_) => 16,
        Refusal::TooManyBytes(_) => 17,
        Refusal::TenthByte(_) => 18,
        Refusal::AboveU32(_) => 19,
        Refusal::NotStrict(_) => 20,
    }
}

pub fn place(r: Refusal) -> usize
    ensures { result ≡ place_of r }
{
    match r {
        Refusal::TooLong => 0,
        Refusal::UnexpectedEof(at) | Refusal::BadMagic(at) | Refusal::BadUtf8(at) => at,
        Refusal::MalformedSection(kind, _) => kind,
        Refusal::Directive(line) | Refusal::BadDefault(line) | Refusal::BadDomain(line) => line,
        Refusal::PackageInWorld(line) | Refusal::NoName(line) => line,
        Refusal::Unmatched(line) | Refusal::Outside(line) => line,
        Refusal::Full(table) => table,
        Refusal::BadTable(row) => row,
        Refusal::NoRoom(needed) => needed,
        Refusal::TooManyBytes(at) | Refusal::TenthByte(at) | Refusal::AboveU32(at) => at,
        Refusal::NotStrict(rule) => rule,
    }
}

// The offset beside the place of 5; 0 for any other.
pub fn beside(r: Refusal) -> usize
    ensures { result ≡ beside_of r }
{
    match r {
        Refusal::MalformedSection(_, at) => at,
        _ => 0,
    }
}

// A sum, or the largest number where it leaves 64 bits.
fn add(by: usize, at: usize) -> usize
    ensures { result ≡ further by at }
{
    by.saturating_add(at)
}

// A refusal of a part that starts at `by`: its offset from where the whole starts. A place that is no offset stays.
pub fn moved(by: usize, r: Refusal) -> Refusal
    ensures { result ≡ moved_on by r }
{
    match r {
        Refusal::UnexpectedEof(at) => Refusal::UnexpectedEof(add(by, at)),
        Refusal::BadMagic(at) => Refusal::BadMagic(add(by, at)),
        Refusal::BadUtf8(at) => Refusal::BadUtf8(add(by, at)),
        Refusal::MalformedSection(kind, at) => Refusal::MalformedSection(kind, add(by, at)),
        Refusal::TooManyBytes(at) => Refusal::TooManyBytes(add(by, at)),
        Refusal::TenthByte(at) => Refusal::TenthByte(add(by, at)),
        Refusal::AboveU32(at) => Refusal::AboveU32(add(by, at)),
        still => still,
    }
}

// A word of at most ten bytes; of a longer one, the first ten.
pub fn slug_of(word: &[u8]) -> Slug
    ensures { result ≡ slug_of word.now }
{
    let mut bytes = [0u8; SLUG_BYTES];
    let len = word.len().min(SLUG_BYTES);
    bytes[..len].copy_from_slice(&word[..len]);
    Slug { bytes, len }
}

// leb.rs over the C interface: a read at an offset of a slice.
ghost use Rattle.std.specs.Prelude.{◌≡◌};
ghost use Rattle.leb.specs.Answers.{finding_of, said_read};
ghost use Rattle.leb.specs.Reads.{uleb_at, u32_at, sleb_at, name_at};
ghost use Rattle.told.specs.Reading.{unsigned_told, range_told};
ghost use Rattle.capi.specs.Reading.{signed_told};

use leb::{Cursor, Read};
use told::cursor::{Range, Unsigned, narrow_of, range_of, unsigned_of};

#[repr(C)]
#[derive(Clone, Copy)]
pub struct Signed {
    pub number: u32,
    pub place: usize,
    pub value: i64,
    pub next: usize,
}

fn signed_of(r: Read<i64>) -> Signed
    ensures { result ≡ signed_told (finding_of (said_read r)) }
{
    match r {
        Ok((value, next)) => Signed {
            number: 0,
            place: 0,
            value,
            next: next.at,
        },
        Err(unread) => Signed {
            number: refusal::number(unread.why),
            place: refusal::place(unread.why),
            value: 0,
            next: 0,
        },
    }
}

pub fn viscrombal_uleb128(s: &[u8], at: usize) -> Unsigned
    ensures { result ≡ unsigned_told (uleb_at s.now at) }
{
    let c = Cursor { at };
    unsigned_of(c.uleb128(s))
}

pub fn viscrombal_uleb128_u32(s: &[u8], at: usize) -> Unsigned
    ensures { result ≡ unsigned_told (u32_at s.now at) }
{
    let c = Cursor { at };
    narrow_of(c.uleb128_u32(s))
}

pub fn viscrombal_sleb128(s: &[u8], at: usize) -> Signed
    ensures { result ≡ signed_told (sleb_at s.now at) }
{
    let c = Cursor { at };
    signed_of(c.sleb128(s))
}

pub fn viscrombal_name(s: &[u8], at: usize) -> Range
    ensures { result ≡ range_told (name_at s.now at) }
{
    let c = Cursor { at };
    range_of(c.name(s))
}

// leb.rs: the cursor's functions that the C interface does not hand out.
ghost use Rattle.std.specs.Prelude.{◌≡◌, ◌-◌, leb, length};
ghost use Rattle.leb.specs.Answers.{finding_of, said_skip};
ghost use Rattle.leb.specs.Reads.{byte_at, fixed_at, taken_at, skip_at};
ghost use Rattle.told.specs.Reading.{unsigned_told, range_told};
ghost use Rattle.judged.specs.Cursors.{skip_told, left_told};

use leb::{Cursor, Unread};
use told::cursor::{Range, Unsigned, narrow_of, range_of, unsigned_of};

#[repr(C)]
#[derive(Clone, Copy)]
pub struct SkipTold {
    pub number: u32,
    pub place: usize,
    pub next: usize,
}

// Where the cursor stands, how many bytes are left, and whether none is.
#[repr(C)]
#[derive(Clone, Copy)]
pub struct LeftTold {
    pub at: usize,
    pub left: usize,
    pub none: bool,
}

fn skip_of(r: Result<Cursor, Unread>) -> SkipTold
    ensures { result ≡ skip_told (finding_of (said_skip r)) }
{
    match r {
        Ok(next) => SkipTold {
            number: 0,
            place: 0,
            next: next.at,
        },
        Err(unread) => SkipTold {
            number: refusal::number(unread.why),
            place: refusal::place(unread.why),
            next: 0,
        },
    }
}

pub fn judged_u8(s: &[u8], at: usize) -> Unsigned
    ensures { result ≡ unsigned_told (byte_at s.now at) }
{
    let c = Cursor { at };
    unsigned_of(c.u8(s).map(|(value, next)| (u64::from(value), next)))
}

pub fn judged_u32_le(s: &[u8], at: usize) -> Unsigned
    ensures { result ≡ unsigned_told (fixed_at s.now at) }
{
    let c = Cursor { at };
    narrow_of(c.u32_le(s))
}

pub fn judged_take(s: &[u8], at: usize, n: usize) -> Range
    ensures { result ≡ range_told (taken_at s.now at n) }
{
    let c = Cursor { at };
    range_of(c.take(s, n))
}

pub fn judged_skip(s: &[u8], at: usize, n: usize) -> SkipTold
    ensures { result ≡ skip_told (skip_at s.now at n) }
{
    let c = Cursor { at };
    skip_of(c.skip(s, n))
}

pub fn judged_left(s: &[u8], at: usize) -> LeftTold
    ensures { result ≡ left_told at (length s.now - at) (leb (length s.now) at) }
{
    let c = Cursor { at };
    LeftTold {
        at: c.position(),
        left: c.remaining(s),
        none: c.is_empty(s),
    }
}

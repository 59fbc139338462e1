// What a read at an offset tells.
ghost use Rattle.std.specs.Prelude.{◌≡◌};
ghost use Rattle.leb.specs.Answers.{finding_of, said_read};
ghost use Rattle.told.specs.Reading.{unsigned_told, range_told};

use leb::Read;
use refusal::Part;

// What a read answers: number and place, then the value and the offset after it, all zero on a refusal.
#[repr(C)]
#[derive(Clone, Copy)]
pub struct Unsigned {
    pub number: u32,
    pub place: usize,
    pub value: u64,
    pub next: usize,
}

#[repr(C)]
#[derive(Clone, Copy)]
pub struct Range {
    pub number: u32,
    pub place: usize,
    pub from: usize,
    pub len: usize,
    pub next: usize,
}

pub fn unsigned_of(r: Read<u64>) -> Unsigned
    ensures { result ≡ unsigned_told (finding_of (said_read r)) }
{
    match r {
        Ok((value, next)) => Unsigned {
            number: 0,
            place: 0,
            value,
            next: next.at,
        },
        Err(unread) => Unsigned {
            number: refusal::number(unread.why),
            place: refusal::place(unread.why),
            value: 0,
            next: 0,
        },
    }
}

pub fn narrow_of(r: Read<u32>) -> Unsigned
    ensures { result ≡ unsigned_told (finding_of (said_read r)) }
{
    unsigned_of(r.map(|(value, next)| (u64::from(value), next)))
}

pub fn range_of(r: Read<Part>) -> Range
    ensures { result ≡ range_told (finding_of (said_read r)) }
{
    match r {
        Ok((part, next)) => Range {
            number: 0,
            place: 0,
            from: part.from,
            len: part.len,
            next: next.at,
        },
        Err(unread) => Range {
            number: refusal::number(unread.why),
            place: refusal::place(unread.why),
            from: 0,
            len: 0,
            next: 0,
        },
    }
}

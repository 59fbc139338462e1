// leb.rs: a cursor over a byte slice, and the numbers and names of the WebAssembly binary format.
#![tactic(auto)]

ghost use Rattle.std.specs.Prelude.{◌≡◌, ◌-◌, ◌<◌, leb, length};
ghost use Rattle.leb.specs.Reads.{byte_at, fixed_at, taken_at, skip_at, uleb_at, u32_at, sleb_at, counted_at, name_at};
ghost use Rattle.leb.specs.Answers.{cursor_at, unread_at, unended_at, answer_from, said_read, said_skip};

use refusal::{Part, Refusal};

// A position in a slice.
#[derive(Clone, Copy)]
pub struct Cursor {
    pub at: usize,
}

// Why a read was refused, and the cursor as it came in.
#[derive(Clone, Copy)]
pub struct Unread {
    pub why: Refusal,
    pub back: Cursor,
}

impl From<Unread> for Refusal {
    ghost from_gives = { λ unread why. why ≡ unread.why };

    fn from(unread: Unread) -> Refusal {
        unread.why
    }
}

// What a read answers: the value and the cursor after it.
pub type Read<T> = Result<(T, Cursor), Unread>;

fn wide(b: u8) -> u32
    ensures { (result ≡ b) × (result < 256) }
{
    b as u32
}

impl Cursor {
    pub fn new() -> Self
        ensures { result ≡ cursor_at 0 }
    {
        Cursor { at: 0 }
    }

    pub fn position(self) -> usize
        ensures { result ≡ self.at }
    {
        self.at
    }

    // How many bytes are left; none where the cursor is past the end.
    pub fn remaining(self, s: &[u8]) -> usize
        ensures { result ≡ length s.now - self.at }
    {
        let at = self.at;
        if at < s.len() { s.len() - at } else { 0 }
    }

    pub fn is_empty(self, s: &[u8]) -> bool
        ensures { result ≡ leb (length s.now) self.at }
    {
        s.len() <= self.at
    }

    // This cursor is given back.
    fn unread(self, why: Refusal) -> Unread
        ensures { result ≡ unread_at why self }
    {
        Unread { why, back: self }
    }

    pub fn u8(self, s: &[u8]) -> Read<u8>
        ensures { said_read result ≡ answer_from self.at (byte_at s.now self.at) }
    {
        let at = self.at;
        if at < s.len() {
            Ok((s[at], Cursor { at: at + 1 }))
        } else {
            Err(self.unread(Refusal::UnexpectedEof(at)))
        }
    }

    // A fixed little-endian u32.
    pub fn u32_le(self, s: &[u8]) -> Read<u32>
        ensures { said_read result ≡ answer_from self.at (fixed_at s.now self.at) }
    {
        let at = self.at;
        if self.remaining(s) < 4 {
            return Err(self.unread(Refusal::UnexpectedEof(at)));
        }
        let b0 = wide(s[at]);
        let b1 = wide(s[at + 1]);
        let b2 = wide(s[at + 2]);
        let b3 = wide(s[at + 3]);
        Ok((b0 | b1 << 8 | b2 << 16 | b3 << 24, Cursor { at: at + 4 }))
    }

    // The next n bytes. A cursor past the end is told before a sum that leaves the address range.
    pub fn take(self, s: &[u8], n: usize) -> Read<Part>
        ensures { said_read result ≡ answer_from self.at (taken_at s.now self.at n) }
    {
        let at = self.at;
        if s.len() < at {
            return Err(self.unread(Refusal::UnexpectedEof(at)));
        }
        if usize::MAX - at < n {
            return Err(self.unread(Refusal::MalformedSection(at, at)));
        }
        if at + n <= s.len() {
            Ok((Part { from: at, len: n }, Cursor { at: at + n }))
        } else {
            Err(self.unread(Refusal::UnexpectedEof(at)))
        }
    }

    pub fn skip(self, s: &[u8], n: usize) -> Result<Cursor, Unread>
        ensures { said_skip result ≡ answer_from self.at (skip_at s.now self.at n) }
    {
        let (_, next) = self.take(s, n)?;
        Ok(next)
    }

    // Why a number has no end after the bytes that 64 bits take: a byte more is one too many, and none more is an end.
    fn unended(self, s: &[u8], i: usize) -> Unread
        ensures { result ≡ unended_at s.now self i }
    {
        if i < s.len() {
            self.unread(Refusal::TooManyBytes(self.at))
        } else {
            self.unread(Refusal::UnexpectedEof(i))
        }
    }

    // An unsigned LEB128 number of at most 64 bits.
    pub fn uleb128(self, s: &[u8]) -> Read<u64>
        ensures { said_read result ≡ answer_from self.at (uleb_at s.now self.at) }
    {
        let start = self.at;
        let mut i = start;
        let mut shift: u32 = 0;
        let mut acc: u64 = 0;
        while shift < 64 {
            if s.len() <= i {
                return Err(self.unread(Refusal::UnexpectedEof(i)));
            }
            let b = s[i];
            let low = (b & 0x7f) as u64;
            if shift == 63 && low > 1 {
                return Err(self.unread(Refusal::TenthByte(start)));
            }
            acc |= low << shift;
            i += 1;
            if b & 0x80 == 0 {
                return Ok((acc, Cursor { at: i }));
            }
            shift += 7;
        }
        Err(self.unended(s, i))
    }

    // An unsigned LEB128 number that fits a u32; one that does not is told where it ends.
    pub fn uleb128_u32(self, s: &[u8]) -> Read<u32>
        ensures { said_read result ≡ answer_from self.at (u32_at s.now self.at) }
    {
        let (v, next) = self.uleb128(s)?;
        if v <= 0xffff_ffff {
            Ok((v as u32, next))
        } else {
            Err(self.unread(Refusal::AboveU32(next.at)))
        }
    }

    // A signed LEB128 number of at most 64 bits, in two's complement.
    pub fn sleb128(self, s: &[u8]) -> Read<i64>
        ensures { said_read result ≡ answer_from self.at (sleb_at s.now self.at) }
    {
        let start = self.at;
        let mut i = start;
        let mut shift: u32 = 0;
        let mut signed: i64 = 0;
        while shift < 64 {
            if s.len() <= i {
                return Err(self.unread(Refusal::UnexpectedEof(i)));
            }
            let b = s[i];
            signed |= ((b & 0x7f) as i64) << shift;
            shift += 7;
            i += 1;
            if b & 0x80 == 0 {
                // The sign is extended from bit 6 of the last byte.
                if shift < 64 && b & 0x40 != 0 {
                    signed |= -1 << shift;
                }
                return Ok((signed, Cursor { at: i }));
            }
        }
        Err(self.unended(s, i))
    }

    // A u32 length, then so many bytes.
    pub fn counted(self, s: &[u8]) -> Read<Part>
        ensures { said_read result ≡ answer_from self.at (counted_at s.now self.at) }
    {
        let (len, next) = self.uleb128_u32(s)?;
        match next.take(s, len as usize) {
            Ok(read) => Ok(read),
            Err(unread) => Err(self.unread(unread.why)),
        }
    }

    // A u32 length, then so many bytes of well-formed UTF-8.
    pub fn name(self, s: &[u8]) -> Read<Part>
        ensures { said_read result ≡ answer_from self.at (name_at s.now self.at) }
    {
        let (bytes, next) = self.counted(s)?;
        let from = bytes.from;
        let end = from + bytes.len;
        if text::utf8::valid_up_to(&s[from..end]) == bytes.len {
            Ok((bytes, next))
        } else {
            Err(self.unread(Refusal::BadUtf8(from)))
        }
    }
}

// A text taken apart: the text as a whole, before a line of it is read; a part of it, trimmed; and the end of a piece.
ghost use Rattle.std.specs.Prelude.{◌≡◌, ◌≤◌, length};
ghost use Rattle.refusal.specs.Said.{said_by};
ghost use Rattle.text.specs.Whole.{whole_text};
ghost use Rattle.text.specs.Piece.{shorn, trimmed_at};

use refusal::{MAX_TEXT, Refusal};

// A part of a text by its ends.
#[derive(Clone, Copy)]
pub struct Span {
    pub from: usize,
    pub past: usize,
}

// 14, then 4 over the whole text.
pub fn test_text(s: &[u8]) -> Result<(), Refusal>
    ensures { said_by result ≡ whole_text s.now }
{
    if MAX_TEXT < s.len() {
        return Err(Refusal::TooLong);
    }
    let good = crate::utf8::valid_up_to(s);
    if good < s.len() {
        return Err(Refusal::BadUtf8(good));
    }
    Ok(())
}

// The part from a to e, trimmed; the empty part at the start where the text has no such part.
pub fn trimmed_at(s: &[u8], a: usize, e: usize) -> Span
    ensures { (result ≡ trimmed_at s.now a e) × (result.from ≤ result.past) × (result.past ≤ length s.now) }
{
    let Some(part) = s.get(a..e) else {
        return Span { from: 0, past: 0 };
    };
    let t = crate::white::trim(part);
    let from = a + t.from;
    Span {
        from,
        past: from + t.len,
    }
}

// How many bytes stay when the bytes b at the end go.
pub fn shorn_of(s: &[u8], b: u8) -> usize
    ensures { result ≡ shorn b s.now }
{
    for i in (0..s.len()).rev() {
        if s[i] != b {
            return i + 1;
        }
    }
    0
}

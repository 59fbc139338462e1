// Unicode's White_Space, and texts without it at their ends.
ghost use Rattle.std.specs.Prelude.{◌≡◌, ◌<◌, ◌%◌, length, drop, get_or};
ghost use Rattle.refusal.specs.Pick.{within};
ghost use Rattle.text.specs.White.{is_white};
ghost use Rattle.text.specs.Chars.{code_of, more};
ghost use Rattle.text.specs.Trim.{trim_start, trim_end, trimmed};

use crate::utf8::step;
use refusal::Part;

fn in_range(c: u32, lo: u32, hi: u32) -> bool
    ensures { result ≡ within lo hi c }
{
    lo <= c && c <= hi
}

// The lines of PropList.txt, in its order: each test has the printed line beside it. tools/white holds them against the file.
pub fn is_white(c: u32) -> bool
    ensures { result ≡ is_white c }
{
    if in_range(c, 0x0009, 0x000D) { // 0009..000D
        return true;
    }
    if in_range(c, 0x0020, 0x0020) { // 0020
        return true;
    }
    if in_range(c, 0x0085, 0x0085) { // 0085
        return true;
    }
    if in_range(c, 0x00A0, 0x00A0) { // 00A0
        return true;
    }
    if in_range(c, 0x1680, 0x1680) { // 1680
        return true;
    }
    if in_range(c, 0x2000, 0x200A) { // 2000..200A
        return true;
    }
    if in_range(c, 0x2028, 0x2028) { // 2028
        return true;
    }
    if in_range(c, 0x2029, 0x2029) { // 2029
        return true;
    }
    if in_range(c, 0x202F, 0x202F) { // 202F
        return true;
    }
    if in_range(c, 0x205F, 0x205F) { // 205F
        return true;
    }
    in_range(c, 0x3000, 0x3000) // 3000
}

// The low bits of the byte at i, 0 past the end.
fn low(s: &[u8], i: usize, m: u8) -> u32
    requires { 0 < m }
    ensures { (result ≡ get_or s.now i 0 % m) × (result < 256) }
{
    match s.get(i) {
        Some(b) => u32::from(b % m),
        None => 0,
    }
}

// A code point, and how many bytes its sequence has after the first.
#[derive(Clone, Copy)]
pub(crate) struct Glyph {
    code: u32,
    more: usize,
}

// The character at `at`. A byte that begins no sequence is a character alone, with no code point.
pub(crate) fn char_at(s: &[u8], at: usize) -> Glyph
    requires { at < length s.now }
    ensures { (result.code ≡ code_of (drop at s.now)) × (result.more ≡ more (drop at s.now)) }
{
    let Some(n) = step(s, at) else {
        return Glyph {
            code: 0x110000,
            more: 0,
        };
    };
    let more = n - at - 1;
    let code = match more {
        0 => low(s, at, 128),
        1 => low(s, at, 32) * 64 + low(s, at + 1, 64),
        2 => (low(s, at, 16) * 64 + low(s, at + 1, 64)) * 64 + low(s, at + 2, 64),
        _ => {
            ((low(s, at, 8) * 64 + low(s, at + 1, 64)) * 64 + low(s, at + 2, 64)) * 64
                + low(s, at + 3, 64)
        }
    };
    Glyph { code, more }
}

// How many bytes the White_Space at the front takes.
pub fn trim_start(s: &[u8]) -> usize
    ensures { result ≡ trim_start s.now }
{
    let mut at = 0;
    while at < s.len() {
        let Glyph { code, more } = char_at(s, at);
        if !is_white(code) {
            return at;
        }
        at = at + 1 + more;
    }
    at
}

// How many bytes stay when the White_Space at the end is removed. An ASCII byte at the end is a character whatever stands before it,
// so that a text is read from its front only where another byte stands there.
pub fn trim_end(s: &[u8]) -> usize
    ensures { result ≡ trim_end s.now }
{
    for i in (0..s.len()).rev() {
        if 0x80 <= s[i] {
            return scan_end(&s[..i + 1]);
        }
        if !is_white(u32::from(s[i])) {
            return i + 1;
        }
    }
    0
}

// The same, character by character from the front: where the last that is not White_Space ends.
fn scan_end(s: &[u8]) -> usize
    ensures { result ≡ trim_end s.now }
{
    let mut last = 0;
    let mut at = 0;
    while at < s.len() {
        let Glyph { code, more } = char_at(s, at);
        at = at + 1 + more;
        if !is_white(code) {
            last = at;
        }
    }
    last
}

// The text without the White_Space at its ends, the front first: of White_Space alone, the empty part at its end.
pub fn trim(s: &[u8]) -> Part
    ensures { result ≡ trimmed s.now }
{
    let from = trim_start(s);
    let len = trim_end(&s[from..]);
    Part { from, len }
}

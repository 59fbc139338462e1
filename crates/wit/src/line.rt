// A line of a manifest: what it says, by ranges of the text.
ghost use Rattle.std.specs.Prelude.{◌≡◌, ◌≤◌, ◌<◌, length, drop};
ghost use Rattle.text.specs.Piece.{piece, trim};
ghost use Rattle.wit.specs.Line.{splits, boundary, unbraced, part_of, reference_of, manifest_worded};
ghost use Rattle.wit.specs.Line.{manifest_directive};

use refusal::Part;
use text::pieces::trimmed_at;

// Nothing; a package; a world and its name; the end of a world; a reference, whether it is an export, its path and the signature that it
// may have; a lone `{`; anything else.
#[derive(Clone, Copy)]
pub(crate) enum Directive {
    Blank,
    Package(Part),
    World(Part),
    Close,
    Refer(bool, Part, Option<Part>),
    Brace,
    Other,
}

// At i stands a `:` with a space after it, or at the end.
fn splits_at(s: &[u8], i: usize) -> bool
    requires { i < length s.now }
    ensures { result ≡ splits (drop i s.now) }
{
    if s[i] != b':' {
        return false;
    }
    let j = i + 1;
    if j < s.len() {
        return s[j].is_ascii_whitespace();
    }
    true
}

// Where a signature is split off; the text's length where none is.
fn boundary_of(s: &[u8]) -> usize
    ensures { result ≡ boundary s.now }
{
    for i in 0..s.len() {
        if splits_at(s, i) {
            return i;
        }
    }
    s.len()
}

// The part from a to e, trimmed, as a range.
fn part_at(s: &[u8], a: usize, e: usize) -> Part
    requires { (a ≤ e) × (e ≤ length s.now) }
    ensures { result ≡ part_of (trim (piece s.now a e)) }
{
    let t = trimmed_at(s, a, e);
    let from = t.from;
    let len = t.past - from;
    Part { from, len }
}

// Without the `{` at its end.
fn unbraced_at(s: &[u8], a: usize, e: usize) -> usize
    requires { (a ≤ e) × (e ≤ length s.now) }
    ensures { (a ≤ result) × (result ≤ e) × (unbraced (piece s.now a e) ≡ trim (piece s.now a result)) }
{
    a + text::pieces::shorn_of(&s[a..e], b'{')
}

// A reference of which the word is cut off.
fn reference_at(s: &[u8], a: usize, e: usize, export: bool) -> Directive
    requires { (a ≤ e) × (e ≤ length s.now) }
    ensures { result ≡ reference_of export (unbraced (trim (piece s.now a e))) }
{
    let whole = trimmed_at(s, a, e);
    let f = whole.from;
    let g = unbraced_at(s, f, whole.past);
    let bare = trimmed_at(s, f, g);
    let b = bare.from;
    let c = bare.past;
    let i = b + boundary_of(&s[b..c]);
    if i < c {
        let path = part_at(s, b, i);
        let signature = part_at(s, i + 1, c);
        return Directive::Refer(export, path, Some(signature));
    }
    let path = Part {
        from: b,
        len: c - b,
    };
    Directive::Refer(export, path, None)
}

// A line that is not empty, trimmed.
fn worded_at(s: &[u8], a: usize, e: usize) -> Directive
    requires { (a ≤ e) × (e ≤ length s.now) }
    ensures { result ≡ manifest_worded (piece s.now a e) }
{
    let line = &s[a..e];
    if line.starts_with(b"package ") {
        return Directive::Package(part_at(s, a + 8, e));
    }
    if line.starts_with(b"world ") {
        let past = unbraced_at(s, a + 6, e);
        return Directive::World(part_at(s, a + 6, past));
    }
    if line == b"}".as_slice() {
        return Directive::Close;
    }
    if line.starts_with(b"import ") {
        return reference_at(s, a + 7, e, false);
    }
    if line.starts_with(b"export ") {
        return reference_at(s, a + 7, e, true);
    }
    if line == b"{".as_slice() {
        return Directive::Brace;
    }
    Directive::Other
}

// What the line from a to e says.
pub(crate) fn directive_at(s: &[u8], a: usize, e: usize) -> Directive
    requires { (a ≤ e) × (e ≤ length s.now) }
    ensures { result ≡ manifest_directive (piece s.now a e) }
{
    let h = a + text::find::find_pair(&s[a..e], b'/', b'/');
    let t = trimmed_at(s, a, h);
    let f = t.from;
    let g = t.past;
    if f < g {
        return worded_at(s, f, g);
    }
    Directive::Blank
}

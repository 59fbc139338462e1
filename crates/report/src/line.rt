// A short line by value, and what it is put together from.
ghost use Rattle.std.specs.Prelude.{◌≡◌, ◌∷◌, [], ◌+◌, ◌<◌};
ghost use Rattle.report.specs.Line.{empty, add_byte, added};
ghost use Rattle.report.specs.Decimal.{decimal_of};

// How many bytes a line holds.
const ROOM: usize = 128;

// Its bytes, then zeros. A length stands beside the buffer, as there is no heap, and `line_of` says what each of its bytes is.
#[derive(Clone, Copy)]
pub struct Line {
    pub bytes: [u8; ROOM],
    pub len: usize,
}

// A line with one byte more, where it has room.
fn add_byte(l: Line, b: u8) -> Line
    ensures { result ≡ add_byte l b }
{
    if ROOM <= l.len {
        return l;
    }
    let mut line = l;
    line.bytes[l.len] = b;
    line.len += 1;
    line
}

pub(crate) fn add(l: Line, bytes: &[u8]) -> Line
    ensures { result ≡ added l bytes.now }
{
    let mut line = l;
    for &b in bytes {
        line = add_byte(line, b);
    }
    line
}

// The line that begins so.
pub(crate) fn begin(bytes: &[u8]) -> Line
    ensures { result ≡ added empty bytes.now }
{
    add(
        Line {
            bytes: [0; ROOM],
            len: 0,
        },
        bytes,
    )
}

fn add_digit(l: Line, d: usize) -> Line
    requires { d < 10 }
    ensures { result ≡ added l ((48 + d) ∷ []) }
{
    add(l, &[b'0' + d as u8])
}

// A number in decimal. By hand, and no `write!`: a write that has no room fails, and here what has none is left out.
pub(crate) fn add_number(l: Line, n: usize) -> Line
    ensures { result ≡ added l (decimal_of n) }
{
    if n < 10 {
        return add_digit(l, n);
    }
    let front = add_number(l, n / 10);
    add_digit(front, n % 10)
}

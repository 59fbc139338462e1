// A line ends at LF, a CR just before it dropped.
ghost use Rattle.std.specs.Prelude.{◌≡◌, ◌+◌, drop};
ghost use Rattle.text.specs.Lines.{line_len, line_step};

use crate::find::find;

// Of the line that begins at a place: where it ends, and where the next begins.
#[derive(Clone, Copy)]
pub struct Line {
    pub end: usize,
    pub next: usize,
}

// At the end of the text, or past it, the line is empty and no other follows.
pub fn line_at(s: &[u8], at: usize) -> Line
    ensures { (result.end ≡ at + line_len (drop at s.now)) × (result.next ≡ at + line_step (drop at s.now)) }
{
    if s.len() <= at {
        return Line { end: at, next: at };
    }
    let lf = at + find(&s[at..], b'\n');
    if s.len() <= lf {
        return Line { end: lf, next: lf };
    }
    if at < lf && s[lf - 1] == b'\r' {
        return Line {
            end: lf - 1,
            next: lf + 1,
        };
    }
    Line {
        end: lf,
        next: lf + 1,
    }
}

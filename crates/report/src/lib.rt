// A number, and the line of a refusal, as short texts by value.
#![tactic(auto)]

pub mod line;

ghost use Rattle.std.specs.Prelude.{◌≡◌};
ghost use Rattle.report.specs.Line.{line_of};
ghost use Rattle.report.specs.Decimal.{decimal_of};
ghost use Rattle.report.specs.Texts.{refused_text};

use crate::line::{Line, add, add_number, begin};

// A number in decimal.
pub fn number_text(n: usize) -> Line
    ensures { result ≡ line_of (decimal_of n) }
{
    let a = begin(b"");
    add_number(a, n)
}

// `refused N at P`
pub fn refused_line(number: usize, place: usize) -> Line
    ensures { result ≡ line_of (refused_text number place) }
{
    let a = begin(b"refused ");
    let b = add_number(a, number);
    let c = add(b, b" at ");
    let d = add_number(c, place);
    add(d, b"\n")
}

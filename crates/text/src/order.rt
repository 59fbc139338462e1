// Comparing bytes: the standard library's comparisons, by the project's own definitions.
ghost use Rattle.std.specs.Prelude.{◌≡◌};
ghost use Rattle.text.specs.Order.{cmp_bytes};
ghost use Rattle.text.specs.Find.{begins, same};

use std::cmp::Ordering;

// Byte by byte; a text stands before one that it begins.
pub fn compare(a: &[u8], b: &[u8]) -> Ordering
    ensures { result ≡ cmp_bytes a.now b.now }
{
    a.cmp(&b)
}

// s begins with w.
pub fn starts(s: &[u8], w: &[u8]) -> bool
    ensures { result ≡ begins w.now s.now }
{
    s.starts_with(w)
}

// s is w.
pub fn equal(s: &[u8], w: &[u8]) -> bool
    ensures { result ≡ same w.now s.now }
{
    s == w
}

// Searching for a byte or a pair of bytes. Where there is none, the answer is the text's length.
ghost use Rattle.std.specs.Prelude.{◌≡◌};
ghost use Rattle.text.specs.Find.{index_of, index_of2};

// The index of the first b.
pub fn find(s: &[u8], b: u8) -> usize
    ensures { result ≡ index_of b s.now }
{
    s.iter().position(|x| *x == b).unwrap_or(s.len())
}

// The index of the first a that has b just after it.
pub fn find_pair(s: &[u8], a: u8, b: u8) -> usize
    ensures { result ≡ index_of2 a b s.now }
{
    // by index, as two bytes are looked at: `starts_with` at each place took a quarter longer
    for i in 0..s.len() {
        if s[i] == a && i + 1 < s.len() && s[i + 1] == b {
            return i;
        }
    }
    s.len()
}

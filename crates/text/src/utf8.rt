// UTF-8: well-formed byte sequences, by the Unicode Standard's Table 3-7.
ghost use Rattle.std.specs.Prelude.{◌≡◌, true, List, ◌∷◌, ℕ, ◌+◌, ◌≤◌, ◌<◌, length};
ghost use Rattle.refusal.specs.Pick.{pick};
ghost use Rattle.text.specs.Ranges.{in_range};
ghost use Rattle.text.specs.Utf8.{tail, seq_len, up_to};
ghost use Rattle.text.specs.Steps.{step_at, Ran, Jumped};

// From 80 to BF. `&` and not `&&`, here and below: each byte is compared, whatever comes of the others, so that less branches.
fn follows(b: u8) -> bool
    ensures { result ≡ in_range tail b }
{
    (0x80 <= b) & (b <= 0xBF)
}

// The two bytes are a sequence.
fn two(a: u8, b: u8) -> bool
    requires { (0x80 ≤ a) × (a < 0xE0) }
    ensures { (s : List ℕ) → seq_len (a ∷ b ∷ s) ≡ pick result 2 0 }
{
    (0xC2 <= a) & follows(b)
}

// The three bytes are a sequence.
fn three(a: u8, b: u8, c: u8) -> bool
    requires { (0xE0 ≤ a) × (a < 0xF0) }
    ensures { (s : List ℕ) → seq_len (a ∷ b ∷ c ∷ s) ≡ pick result 3 0 }
{
    let lo = if a == 0xE0 { 0xA0 } else { 0x80 };
    let hi = if a == 0xED { 0x9F } else { 0xBF };
    (lo <= b) & (b <= hi) & follows(c)
}

// The four bytes are a sequence.
fn four(a: u8, b: u8, c: u8, d: u8) -> bool
    requires { 0xF0 ≤ a }
    ensures { (s : List ℕ) → seq_len (a ∷ b ∷ c ∷ d ∷ s) ≡ pick result 4 0 }
{
    let lo = if a == 0xF0 { 0x90 } else { 0x80 };
    let hi = if a == 0xF4 { 0x8F } else { 0xBF };
    (a <= 0xF4) & (lo <= b) & (b <= hi) & follows(c) & follows(d)
}

// Past the well-formed sequence at `at`; none where no such sequence stands there.
pub(crate) fn step(s: &[u8], at: usize) -> Option<usize>
    requires { at < length s.now }
    ensures { result ≡ step_at s.now at }
{
    let a = s[at];
    let left = s.len() - at;
    if a < 0x80 {
        return Some(at + 1);
    }
    if a < 0xE0 {
        if 2 <= left && two(a, s[at + 1]) {
            return Some(at + 2);
        }
        return None;
    }
    if a < 0xF0 {
        if 3 <= left && three(a, s[at + 1], s[at + 2]) {
            return Some(at + 3);
        }
        return None;
    }
    if 4 <= left && four(a, s[at + 1], s[at + 2], s[at + 3]) {
        return Some(at + 4);
    }
    None
}

// The 32 bytes from `at` on are ASCII. Each is looked at, whatever those before it are, so that many are at once.
fn plain(s: &[u8], at: usize) -> bool
    requires { at + 32 ≤ length s.now }
    ensures { result ≡ true → Ran s.now at (at + 32) }
{
    let mut all: u8 = 0;
    for i in 0..32 {
        all |= s[at + i];
    }
    all < 0x80
}

// Past what is ASCII from `from` on, in steps of 32 bytes.
fn run(s: &[u8], from: usize) -> usize
    requires { from ≤ length s.now }
    ensures { Ran s.now from result }
{
    let mut at = from;
    while 32 <= s.len() - at {
        if !plain(s, at) {
            return at;
        }
        at += 32;
    }
    at
}

// Past eight ASCII bytes, each a sequence, and more that follow them, or past one sequence.
fn jump(s: &[u8], at: usize) -> Option<usize>
    requires { at < length s.now }
    ensures { Jumped s.now at result }
{
    if s[at] < 0x80 {
        if 8 <= s.len() - at {
            let low = s[at + 1] | s[at + 2] | s[at + 3];
            let high = s[at + 4] | s[at + 5] | s[at + 6] | s[at + 7];
            if low | high < 0x80 {
                return Some(run(s, at + 8));
            }
        }
        return Some(at + 1);
    }
    step(s, at)
}

// How many bytes stand before the first ill-formed sequence: all of them in a well-formed text.
pub fn valid_up_to(s: &[u8]) -> usize
    ensures { result ≡ up_to s.now }
{
    let mut at = 0;
    while at < s.len() {
        let Some(n) = jump(s, at) else {
            return at;
        };
        at = n;
    }
    at
}

// Rule 6 without a sort: names whose prints are all new are all different. Where two prints meet nothing is said.
ghost use Rattle.std.specs.Prelude.{◌≡◌, true, ◌+◌, ◌≤◌, ◌<◌, length};
ghost use Rattle.strict.specs.Rules.{different, names_of};
ghost use Rattle.strict.specs.Quick.{mixed, stirred, half_at, word_at, name_print, Marked, Noted};

use leb::Cursor;
use table::shape::EXPORT_WIDTH;

// Half a word is below this; the factors are odd and take every bit of it along.
const HALF: usize = 4294967296;

const SPREAD: usize = 2654435761;

const STIR: usize = 2246822519;

// Bytes of a word, and of half a word. A name that has none is looked at byte by byte.
const WORD: usize = 8;

const HALF_WORD: usize = 4;

// A name is looked at in three places: both ends, and a word that begins here at first.
pub(crate) const FIRST_SPOT: usize = 8;

// Two names are compared in such steps.
const BLOCK: usize = 64;

// Up to so many names, marks of so many places: cleared in no time against a read of as many exports.
pub(crate) const FEW: usize = 16;

pub(crate) const FEW_PLACES: usize = 1024;

const SOME: usize = 128;

const SOME_PLACES: usize = 8192;

const PLACES: usize = 65536;

// Where the three places of a print stand in it.
const FIRST: usize = 256;

const SECOND: usize = 16777216;

const THIRD: usize = 1099511627776;

// A print, and one byte after another.
fn mix(bytes: &[u8], start: usize) -> usize
    requires { start < 4294967296 }
    ensures { (result ≡ mixed start bytes.now) × (result < 4294967296) }
{
    let mut print = start;
    for byte in bytes {
        print = (print * SPREAD + *byte as usize) % HALF;
    }
    print
}

// Two halves in one word.
fn stir(low: usize, high: usize) -> usize
    ensures { result ≡ stirred low high }
{
    low % HALF * SPREAD ^ high % HALF * STIR
}

// Four bytes as a number.
fn half(s: &[u8], at: usize) -> usize
    ensures { result ≡ half_at s.now at }
{
    match (Cursor { at }).u32_le(s) {
        Ok((v, _)) => v as usize,
        Err(_) => 0,
    }
}

// Eight bytes, stirred.
fn word(s: &[u8], at: usize) -> usize
    requires { at + 8 ≤ length s.now }
    ensures { result ≡ word_at s.now at }
{
    stir(half(s, at), half(s, at + HALF_WORD))
}

// A number that tells most names apart: of the length, the first eight bytes, eight from `spot` on and the last eight.
fn print_of(name: &[u8], spot: usize) -> usize
    ensures { result ≡ name_print spot name.now }
{
    let n = name.len();
    if n < WORD {
        let all = mix(name, n);
        return stir(all, all ^ all / 32768);
    }
    let last = n - WORD;
    let one = word(name, 0);
    let two = word(name, spot.min(last));
    let three = word(name, last);
    // by shares that differ, so that words that are the same do not cancel out
    let all = one ^ two / 8 ^ three / 64 ^ n;
    stir(all, all / HALF)
}

// A place of the print is not marked.
fn is_new(marks: &[u8], last: usize, print: usize) -> bool
    requires { last < length marks.now }
    ensures { result ≡ true → Marked marks.now last print → ⊥ }
{
    let a = print / FIRST & last;
    let b = print / SECOND & last;
    let c = print / THIRD & last;
    marks[a] != 1 || marks[b] != 1 || marks[c] != 1
}

fn note(marks: &mut [u8], last: usize, print: usize)
    requires { last < length marks.old }
    ensures { Noted marks.old marks.new last print }
{
    let a = print / FIRST & last;
    let b = print / SECOND & last;
    let c = print / THIRD & last;
    marks[a] = 1;
    marks[b] = 1;
    marks[c] = 1;
}

// From the last name to the first, each print is new.
fn all_new(
    file: &[u8],
    exports: &[usize],
    n: usize,
    spot: usize,
    marks: &mut [u8],
    last: usize,
) -> bool
    requires { last < length marks.old }
    ensures { result ≡ true → different (names_of file.now exports.now n) ≡ true }
{
    for i in (0..n).rev() {
        let from = table::cell(exports, EXPORT_WIDTH, i, 0);
        let len = table::cell(exports, EXPORT_WIDTH, i, 1);
        let print = print_of(table::range(file, from, len), spot);
        if !is_new(marks, last, print) {
            return false;
        }
        note(marks, last, print);
    }
    true
}

// The same, with marks of N places.
pub(crate) fn all_new_in<const N: usize>(
    file: &[u8],
    exports: &[usize],
    n: usize,
    spot: usize,
) -> bool
    requires some { 0 < N }
    requires most { N ≤ 65536 }
    ensures { result ≡ true → different (names_of file.now exports.now n) ≡ true }
{
    let mut marks = [0u8; N];
    all_new(file, exports, n, spot, &mut marks, N - 1)
}

// Whether the first n export names are surely all different.
pub(crate) fn surely_differ(file: &[u8], exports: &[usize], n: usize, spot: usize) -> bool
    ensures { result ≡ true → different (names_of file.now exports.now n) ≡ true }
{
    if n <= FEW {
        all_new_in::<FEW_PLACES>(file, exports, n, spot)
    } else if n <= SOME {
        all_new_in::<SOME_PLACES>(file, exports, n, spot)
    } else {
        all_new_in::<PLACES>(file, exports, n, spot)
    }
}

// How far two names are the same, in steps of a block.
fn common_blocks(a: &[u8], b: &[u8]) -> usize {
    let mut i = 0;
    while BLOCK <= a.len() - i {
        if !text::order::equal(table::range(a, i, BLOCK), table::range(b, i, BLOCK)) {
            return i;
        }
        i += BLOCK;
    }
    i
}

// How far two names are the same.
fn parting(a: &[u8], b: &[u8]) -> usize {
    for i in common_blocks(a, b)..a.len() {
        if b.len() <= i || a[i] != b[i] {
            return i;
        }
    }
    a.len()
}

// Where the names of the first and of the last row part: of names that are numbered, where the number begins. Any place is as good as
// another for what is proved.
pub(crate) fn parting_of(file: &[u8], exports: &[usize], n: usize) -> usize {
    if n == 0 {
        return 0;
    }
    let from = table::cell(exports, EXPORT_WIDTH, 0, 0);
    let len = table::cell(exports, EXPORT_WIDTH, 0, 1);
    let last_from = table::cell(exports, EXPORT_WIDTH, n - 1, 0);
    let last_len = table::cell(exports, EXPORT_WIDTH, n - 1, 1);
    parting(
        table::range(file, from, len),
        table::range(file, last_from, last_len),
    )
}

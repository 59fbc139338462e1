// The quick path of the comparison: names are compared only where their prints agree, and only as long as a budget of bytes lasts.
ghost use Rattle.std.specs.Prelude.{◌≡◌, true, [], ◌+◌, ◌-◌, ◌*◌, ◌≤◌, ◌<◌, length, set};
ghost use Rattle.table.specs.Table.{laid, cells, rows_of};
ghost use Rattle.differences.specs.Numbers.{some_from};
ghost use Rattle.keyed.specs.Keying.{single};
ghost use Rattle.keyed.specs.Quick.{mixed_print, and_number, ends_print, Unlike, Seeks, Unmarked, Tried};
ghost use Rattle.keyed.specs.Rows.{print_of, PrintedOf, meets, mark_of};

use crate::marks::others;
use crate::rows::KeyRows;
use crate::{KEY_LEN, KEY_MAJOR, KEY_MARK, KEY_MINOR, KEY_WIDTH};
use std::ops::Range;

// A print is below this; the factor is odd and takes every bit of it along.
const PRINTS: usize = 4294967296;

const SPREAD: usize = 2654435761;

// Bytes at each end of a name that its print is of.
const EDGE: usize = 8;

// Prints that are looked at at once.
const BLOCK: usize = 16;

// A print, and one byte after another.
fn mix(bytes: &[u8], start: usize) -> usize
    requires { start < 4294967296 }
    ensures { (result ≡ mixed_print start bytes.now) × (result < 4294967296) }
{
    let mut print = start;
    for &byte in bytes {
        print = (print * SPREAD + byte as usize) % PRINTS;
    }
    print
}

// A print, and a number.
fn stir(print: usize, number: usize) -> usize
    requires { print < 4294967296 }
    ensures { (result ≡ and_number print number) × (result < 4294967296) }
{
    (print * SPREAD + number % PRINTS) % PRINTS
}

// A number that tells most names apart: of the length, the first bytes and the last.
fn name_print(name: &[u8]) -> usize
    ensures { (result ≡ ends_print name.now) × (result < 4294967296) }
{
    let n = name.len();
    if n < EDGE {
        return mix(name, n);
    }
    let head = mix(table::range(name, 0, EDGE), n % PRINTS);
    mix(table::range(name, n - EDGE, EDGE), head)
}

// None of the sixteen prints from `at` on is this one. Each is looked at, whatever those before it are, so that many are at once.
fn none_like(prints: &[usize], print: usize, at: usize) -> bool
    requires { at + 16 ≤ length prints.now }
    ensures { result ≡ true → Unlike prints.now print at (at + 16) }
{
    let mut met = false;
    for &other in &prints[at..at + BLOCK] {
        met |= other == print;
    }
    !met
}

// Rows whose print is another, passed sixteen at a time.
fn pass_blocks(prints: &[usize], print: usize, from: usize, to: usize) -> usize
    requires { (from ≤ to) × (to ≤ length prints.now) }
    ensures { (from ≤ result) × (result ≤ to) × Unlike prints.now print from result }
{
    let mut j = from;
    while BLOCK <= to - j {
        if !none_like(prints, print, j) {
            return j;
        }
        j += BLOCK;
    }
    j
}

// The first row from `from` on that has this print, or `to`.
fn next_like(prints: &[usize], print: usize, from: usize, to: usize) -> usize
    requires { (from ≤ to) × (to ≤ length prints.now) }
    ensures { (from ≤ result) × (result ≤ to) × Unlike prints.now print from result }
{
    for j in pass_blocks(prints, print, from, to)..to {
        if prints[j] == print {
            return j;
        }
    }
    to
}

// Whether a row has the key, and what is left of the budget.
#[derive(Clone, Copy)]
pub(crate) struct Sought {
    met: bool,
    left: usize,
}

impl<'a> KeyRows<'a> {
    // The print of row i: of its name and its two numbers.
    fn print(self, i: usize) -> usize
        ensures { result ≡ print_of self.entry i }
    {
        let name = name_print(self.name(i));
        let major = stir(name, self.cell(i, KEY_MAJOR));
        stir(major, self.cell(i, KEY_MINOR))
    }

    // The print of every row.
    fn fill_prints(self, n: usize, prints: &mut [usize])
        requires { (prints.old ≡ laid (length prints.old) []) × (n ≤ length prints.old) }
        ensures { prints.new ≡ laid (length prints.old) (cells single (rows_of (print_of self.entry) n)) }
    {
        for i in 0..n {
            table::put_row(prints, i, &[self.print(i)]);
        }
    }

    // Row j is wanted, and its key is that of row i.
    fn meets(self, i: usize, j: usize) -> bool
        ensures { result ≡ meets self.entry i j }
    {
        self.cell(j, KEY_MARK) == 1 && self.same_key(i, j)
    }

    // The key of row i among the rows of a span; none where the budget did not last. A row of its print with another key costs the
    // length of the name, and one.
    fn seek(
        self,
        prints: &[usize],
        n: usize,
        i: usize,
        span: Range<usize>,
        budget: usize,
    ) -> Option<Sought>
        requires i_lt_n { (i < n) × (span.start ≤ span.end) × (span.end ≤ n) × (n ≤ length prints.now) }
        requires printed { PrintedOf self n prints.now }
        ensures { Seeks (some_from (meets self.entry i) span.start (span.end - span.start)) result }
    {
        let print = prints[i];
        let cost = self.cell(i, KEY_LEN);
        let mut left = budget;
        let mut j = next_like(prints, print, span.start, span.end);
        // the label is the loop's name in its proof
        'search: while j < span.end {
            if self.meets(i, j) {
                return Some(Sought { met: true, left });
            }
            if left <= cost {
                return None;
            }
            left -= cost + 1;
            j = next_like(prints, print, j + 1, span.end);
        }
        Some(Sought { met: false, left })
    }

    // 1 for each row whose key the other list has, else 0; or false where the budget, half the bytes of both lists, did not last.
    fn mark_found(self, prints: &[usize], nb: usize, n: usize, found: &mut [usize]) -> bool
        requires found_value { (found.old ≡ laid (length found.old) []) × (nb ≤ n) × (n ≤ length prints.now) × (n ≤ length found.old) }
        requires printed { PrintedOf self n prints.now }
        ensures { result ≡ true → found.new ≡ laid (length found.old) (cells single (rows_of (mark_of self.entry nb n) n)) }
    {
        let mut left = self.first.len() / 2 + self.second.len() / 2;
        for i in 0..n {
            let Some(sought) = self.seek(prints, n, i, others(nb, n, i), left) else {
                return false;
            };
            table::put_row(found, i, &[usize::from(sought.met)]);
            left = sought.left;
        }
        true
    }
}

// Row i has no mark: zero in its last cell, where the table has it.
fn unmark_row(keys: &mut [usize], i: usize)
    ensures { keys.new ≡ set keys.old (i * 6 + 5) 0 }
{
    if i < keys.len() / KEY_WIDTH {
        keys[i * KEY_WIDTH + KEY_MARK] = 0;
    }
}

// The rows that are found are no longer wanted.
fn unmark(keys: &mut [usize], found: &[usize], n: usize)
    ensures { Unmarked keys.old found.now n keys.new }
{
    for i in 0..n {
        if table::cell(found, 1, i, 0) == 1 {
            unmark_row(keys, i);
        }
    }
}

// The marks of rows that the other list has are taken; false, and nothing changed, where the budget did not last.
pub(crate) fn try_quick(
    first: &[u8],
    second: &[u8],
    keys: &mut [usize],
    nb: usize,
    n: usize,
    prints: &mut [usize],
    found: &mut [usize],
) -> bool
    requires { (nb ≤ n) × (n ≤ length prints.old) × (n ≤ length found.old) }
    ensures { Tried first.now second.now keys.old nb n keys.new result }
{
    table::clear(prints);
    table::clear(found);
    let rows = KeyRows {
        first,
        second,
        keys,
    };
    rows.fill_prints(n, prints);
    if !rows.mark_found(prints, nb, n, found) {
        return false;
    }
    unmark(keys, found, n);
    true
}

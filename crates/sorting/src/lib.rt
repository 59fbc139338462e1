// An index table: the numbers of a table's rows, in the order of what the rows hold. docs/RULES.md, "Tables".
#![tactic(auto)]

ghost use Rattle.std.specs.Prelude.{◌≡◌, Bool, ℕ, ◌≤◌, ◌<◌, length, take};
ghost use Rattle.refusal.specs.Pick.{pick};
ghost use Rattle.text.specs.Order.{and_then, cmp_nat, cmp_bytes};
ghost use Rattle.sorting.specs.Sort.{put_in_order, sort, selected, up_from};
ghost use Rattle.sorting.specs.Keys.{by_name, sorted_rows, other_rows, Sorts};
ghost use Rattle.sorting.specs.Filling.{order_of, column_of, name_in, marked_in};
ghost use Rattle.sorting.specs.Filling.{Placed, Ordered, inserted, Inserted};

use std::cmp::Ordering;

// Which rows are sorted, and by which of their cells. A cell that a row does not have is zero, so a column from `width` on leaves the
// matter out.
#[derive(Clone, Copy)]
pub struct Keys {
    pub width: usize,
    // the rows whose cell `mark` is `value`
    pub mark: usize,
    pub value: usize,
    // first by this cell
    pub major: usize,
    // then by a range of bytes: of the first file where the cell `file` is zero, else of the second
    pub file: usize,
    pub from: usize,
    pub len: usize,
    // then by this cell
    pub minor: usize,
    // of rows that tie, every one in row order, or else the lowest alone
    pub every: bool,
}

// A table's rows, the two files that their names are parts of, and how they are sorted.
#[derive(Clone, Copy)]
pub struct Rows<'a> {
    pub first: &'a [u8],
    pub second: &'a [u8],
    pub cells: &'a [usize],
    pub keys: Keys,
}

// The keys of a list of names without repeats: the range at cells `from` and `len`, of the marked rows.
pub fn by_name(width: usize, from: usize, len: usize, mark: usize, value: usize) -> Keys
    ensures { result ≡ by_name width from len mark value }
{
    Keys {
        width,
        mark,
        value,
        major: width,
        file: width,
        from,
        len,
        minor: width,
        every: false,
    }
}

impl<'a> Rows<'a> {
    // The numbers below `n` of the marked rows, sorted; then zeros. Says how many there are; none, and zero throughout, where there is
    // no room for them all.
    pub fn sort(self, n: usize, sorted: &mut [usize]) -> Option<usize>
        ensures { Sorts (sorted_rows self.entry.first.now self.entry.second.now self.entry.cells.now self.entry.keys n)
            sorted.old sorted.new result }
    {
        self.sort_wanted(n, sorted, |i| self.is_marked(i))
    }

    // The same of the rows that are not marked.
    pub fn sort_others(self, n: usize, sorted: &mut [usize]) -> Option<usize>
        ensures { Sorts (other_rows self.entry.first.now self.entry.second.now self.entry.cells.now self.entry.keys n)
            sorted.old sorted.new result }
    {
        self.sort_wanted(n, sorted, |i| !self.is_marked(i))
    }

    fn sort_wanted<F: Fn(usize) -> bool>(
        self,
        n: usize,
        sorted: &mut [usize],
        is_wanted: F,
    ) -> Option<usize>
        requires { F.IsAlwaysCallable is_wanted }
        ensures { (wanted : ℕ → Bool) → ((i : ℕ) (r : Bool) → i < n → F.post is_wanted i r → r ≡ wanted i)
            → Sorts (sort (order_of self.entry) (selected wanted (up_from 0 n)))
            sorted.old sorted.new result }
    {
        table::clear(sorted);
        let mut k = 0;
        // from the last row to the first, so that of rows that tie the lowest stays
        for i in (0..n).rev() {
            if is_wanted(i) {
                let Some(more) = self.insert(sorted, k, i) else {
                    // the list only grows: once it has no room it has none in the end
                    table::clear(sorted);
                    return None;
                };
                k = more;
            }
        }
        Some(k)
    }

    // Row x put into the first k of the list: how many there are then, or that there is no room.
    fn insert(self, sorted: &mut [usize], k: usize, x: usize) -> Option<usize>
        requires { Ordered (order_of self) sorted.old k }
        ensures { Inserted
            (put_in_order (order_of self.entry) x (take k sorted.old))
            sorted.old sorted.new result }
    {
        match self.find_place(sorted, k, x) {
            Ok(p) => {
                sorted[p] = x;
                Some(k)
            }
            Err(p) => {
                if sorted.len() <= k {
                    return None;
                }
                insert_at(sorted, p, k, x);
                Some(k + 1)
            }
        }
    }

    // Where row x goes among the first k of the list: over the row that it ties with, or in before a row.
    fn find_place(self, sorted: &[usize], k: usize, x: usize) -> Result<usize, usize>
        requires { Ordered (order_of self) sorted.now k }
        ensures { Placed (order_of self.entry)
            x (take k sorted.now) result }
    {
        let key = self.key(x);
        sorted[..k].binary_search_by(|y| self.compare(*y, key))
    }

    // What row i is sorted by, in this order.
    fn key(self, i: usize) -> (usize, &'a [u8], usize, usize)
        ensures { (result.0 ≡ column_of self.entry self.entry.keys.major i)
            × (result.1.now ≡ name_in self.entry i)
            × (result.2 ≡ column_of self.entry self.entry.keys.minor i)
            × (result.3 ≡ pick self.entry.keys.every i 0) }
    {
        (
            self.cell(i, self.keys.major),
            self.name(i),
            self.cell(i, self.keys.minor),
            self.among_ties(i),
        )
    }

    // How row i stands to a row with this key. A part is read where those before it tie.
    fn compare(self, i: usize, key: (usize, &[u8], usize, usize)) -> Ordering
        ensures { result ≡ and_then (cmp_nat (column_of self.entry self.entry.keys.major i) key.entry.0)
            (and_then (cmp_bytes (name_in self.entry i) key.entry.1.now)
            (and_then (cmp_nat (column_of self.entry self.entry.keys.minor i) key.entry.2)
            (cmp_nat (pick self.entry.keys.every i 0) key.entry.3))) }
    {
        let major = self.cell(i, self.keys.major).cmp(&key.0);
        if major.is_ne() {
            return major;
        }
        let bytes = text::order::compare(self.name(i), key.1);
        if bytes.is_ne() {
            return bytes;
        }
        let minor = self.cell(i, self.keys.minor).cmp(&key.2);
        if minor.is_ne() {
            return minor;
        }
        self.among_ties(i).cmp(&key.3)
    }

    // By which row i is sorted among rows that tie, where every one is wanted.
    fn among_ties(self, i: usize) -> usize
        ensures { result ≡ pick self.entry.keys.every i 0 }
    {
        if self.keys.every { i } else { 0 }
    }

    // The bytes of row i, a part of the file that it names.
    fn name(self, i: usize) -> &'a [u8]
        ensures { result.now ≡ name_in self.entry i }
    {
        let file = if self.cell(i, self.keys.file) == 0 {
            self.first
        } else {
            self.second
        };
        table::range(
            file,
            self.cell(i, self.keys.from),
            self.cell(i, self.keys.len),
        )
    }

    fn is_marked(self, i: usize) -> bool
        ensures { result ≡ marked_in self.entry i }
    {
        self.cell(i, self.keys.mark) == self.keys.value
    }

    fn cell(self, i: usize, column: usize) -> usize
        ensures { result ≡ column_of self.entry column i }
    {
        table::cell(self.cells, self.keys.width, i, column)
    }
}

// v put in at place p, what stands from p to k moved up by one.
fn insert_at(sorted: &mut [usize], p: usize, k: usize, v: usize)
    requires { (p ≤ k) × (k < length sorted.old) }
    ensures { sorted.new ≡ inserted sorted.old p k v }
{
    // not `copy_within`: an archive for C would call `memmove` for it
    for j in (p..k).rev() {
        sorted[j + 1] = sorted[j];
    }
    sorted[p] = v;
}

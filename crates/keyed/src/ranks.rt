// Every row gets the number of its key: equal keys equal numbers, and a lower key a lower one.
ghost use Rattle.std.specs.Prelude.{◌≡◌, [], ℕ, ◌+◌, ◌≤◌, ◌<◌, length};
ghost use Rattle.table.specs.Table.{laid};
ghost use Rattle.sorting.specs.Sort.{◌∈◌};
ghost use Rattle.keyed.specs.Keying.{rank_after, ranked, by_rank, missing, holds_all, Whole, Lacks};
ghost use Rattle.keyed.specs.Rows.{one_key};

use crate::marks::mark_missing;
use crate::rows::KeyRows;
use crate::{columns, has_room};
use sorting::{Keys, Rows};

impl<'a> KeyRows<'a> {
    // The rank of row i, which stands after row `last` with this rank.
    fn next_rank(self, last: usize, i: usize, rank: usize) -> usize
        requires { rank + 1 < 18446744073709551616 }
        ensures { result ≡ rank_after (one_key self.entry last i) rank }
    {
        if self.same_key(last, i) {
            return rank;
        }
        rank + 1
    }

    // The rows of a sorted list are ranked from 1 on, one more where the key is not that of the row before.
    fn number_rows(self, list: &[usize], ranks: &mut [usize])
        requires { (i : ℕ) → i ∈ list.now → i < length ranks.old }
        ensures { ranks.new ≡ ranked (one_key self.entry) list.now ranks.old }
    {
        if list.is_empty() {
            return;
        }
        let mut last = list[0];
        let mut rank = 1;
        for &i in list {
            rank = self.next_rank(last, i, rank);
            ranks[i] = rank;
            last = i;
        }
    }

    // Every wanted row in order, its rank, which of them the other list lacks, and these by rank.
    fn sort_missing(
        self,
        nb: usize,
        n: usize,
        every: bool,
        ranks: &mut [usize],
        lost: &mut [usize],
        numbers: &mut [usize],
    ) -> Option<usize>
        requires nb_le_n { (nb ≤ n) × (n ≤ length ranks.old) × (n ≤ length lost.old) × (n ≤ length numbers.old) }
        requires ranks_value { (ranks.old ≡ laid (length ranks.old) []) × (lost.old ≡ laid (length lost.old) []) }
        ensures { Whole (missing self.entry.first.now self.entry.second.now self.entry.keys.now nb n every)
            numbers.old numbers.new result }
    {
        let m = self.by(columns(true)).sort(n, numbers)?;
        self.number_rows(&numbers[..m], ranks);
        mark_missing(ranks, nb, n, lost);
        let marked = Rows {
            first: self.first,
            second: self.second,
            cells: lost,
            keys: by_rank(every),
        };
        marked.sort_others(n, numbers)
    }

    // What `list_missing` answers, by ranks alone.
    pub(crate) fn list_by_rank(
        self,
        nb: usize,
        nc: usize,
        every: bool,
        ranks: &mut [usize],
        lost: &mut [usize],
        numbers: &mut [usize],
    ) -> Option<usize>
        ensures { Lacks (holds_all (nb + nc) (length ranks.old) (length lost.old) (length numbers.old))
            (missing self.entry.first.now self.entry.second.now self.entry.keys.now nb (nb + nc) every)
            numbers.old numbers.new result }
    {
        table::clear(ranks);
        table::clear(lost);
        table::clear(numbers);
        if !has_room(nb, nc, ranks.len(), lost.len(), numbers.len()) {
            return None;
        }
        self.sort_missing(nb, nb + nc, every, ranks, lost, numbers)
    }
}

// How a table of ranks is sorted: by the rank, the rows whose rank is not zero.
fn by_rank(every: bool) -> Keys
    ensures { result ≡ by_rank every }
{
    Keys {
        width: 1,
        mark: 0,
        value: 0,
        major: 0,
        file: 1,
        from: 1,
        len: 1,
        minor: 1,
        every,
    }
}

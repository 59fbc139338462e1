// Which rows the other list lacks, by their ranks.
ghost use Rattle.std.specs.Prelude.{◌≡◌, [], ◌≤◌, length};
ghost use Rattle.table.specs.Table.{laid, cells, rows_of};
ghost use Rattle.keyed.specs.Keying.{single, others_of, lonely};

use std::ops::Range;

// The rows of the list that row i is not of.
pub(crate) fn others(nb: usize, n: usize, i: usize) -> Range<usize>
    ensures { result ≡ others_of nb n i }
{
    if i < nb { nb..n } else { 0..nb }
}

// Each row's rank, zero where a row of the other list has it: the search ends at the first.
pub(crate) fn mark_missing(ranks: &[usize], nb: usize, n: usize, lost: &mut [usize])
    requires { (lost.old ≡ laid (length lost.old) []) × (nb ≤ n) × (n ≤ length ranks.now) × (n ≤ length lost.old) }
    ensures { lost.new ≡ laid (length lost.old) (cells single (rows_of (lonely ranks.now nb n) n)) }
{
    for i in 0..n {
        let found = ranks[others(nb, n, i)].contains(&ranks[i]);
        table::put_row(lost, i, &[if found { 0 } else { ranks[i] }]);
    }
}

// The two lists: the numbers of the rows that the other module lacks, in order, and the rows of tables 8 and 9.
ghost use Rattle.std.specs.Prelude.{◌≡◌, not, ◌&&◌, [], ◌+◌, ◌*◌, ◌≤◌, length};
ghost use Rattle.table.specs.Table.{laid, cells};
ghost use Rattle.table.specs.Shape.{width};
ghost use Rattle.differences.specs.declared.Change.TheVariants.{Removed, Added};
ghost use Rattle.differences.specs.Compared.{given_of};
ghost use Rattle.keyed.specs.Keying.{key_width};
ghost use Rattle.compat.specs.Keying.{key_limit, row_count, every_of};
ghost use Rattle.compat.specs.Listing.{Passed, Listed, place_at, place_cells, need_cells_at, has_change};

use crate::keys::{FEW_CELLS, FEW_KEYS, KEY_CELLS, MAX_KEYS, Rows, fill_keys, key_at, row_count};
use differences::{Change, GivenModule, change_number};
use keyed::list_missing;

// Each repeat of an export is listed, and of one pair the lowest row alone.
fn every(rows: Rows) -> bool
    ensures { result ≡ every_of rows }
{
    match rows {
        Rows::Exports => true,
        Rows::Needs => false,
    }
}

// The rows that one of the modules lacks, with tables for so many rows, and so many cells of keys, to work in.
fn list_within<const ROWS: usize, const CELLS: usize>(
    rows: Rows,
    baseline: GivenModule,
    candidate: GivenModule,
    numbers: &mut [usize],
) -> usize
    requires sizes { (ROWS ≤ key_limit) × (CELLS ≤ key_limit * key_width) }
    requires room { (row_count rows (given_of baseline) + row_count rows (given_of candidate) ≤ ROWS)
        × ((row_count rows (given_of baseline) + row_count rows (given_of candidate)) * key_width ≤ CELLS)
        × (row_count rows (given_of baseline) + row_count rows (given_of candidate) ≤ length numbers.old) }
    requires passed { (Passed rows (given_of baseline)) × (Passed rows (given_of candidate)) }
    ensures { Listed rows (given_of baseline.entry) (given_of candidate.entry) numbers.new result }
{
    let mut keys = [0usize; CELLS];
    let mut ranks = [0usize; ROWS];
    let mut lost = [0usize; ROWS];
    let first = row_count(rows, baseline);
    let second = row_count(rows, candidate);
    fill_keys(rows, baseline, candidate, first + second, &mut keys);
    let listed = list_missing(
        baseline.file,
        candidate.file,
        &mut keys,
        first,
        second,
        every(rows),
        &mut ranks,
        &mut lost,
        numbers,
    );
    // there is room for every row
    listed.unwrap_or(0)
}

pub(crate) fn list_rows(
    rows: Rows,
    baseline: GivenModule,
    candidate: GivenModule,
    numbers: &mut [usize],
) -> usize
    requires room { (row_count rows (given_of baseline) + row_count rows (given_of candidate) ≤ key_limit)
        × (row_count rows (given_of baseline) + row_count rows (given_of candidate) ≤ length numbers.old) }
    requires passed { (Passed rows (given_of baseline)) × (Passed rows (given_of candidate)) }
    ensures { Listed rows (given_of baseline.entry) (given_of candidate.entry) numbers.new result }
{
    if row_count(rows, baseline) + row_count(rows, candidate) <= FEW_KEYS {
        return list_within::<FEW_KEYS, FEW_CELLS>(rows, baseline, candidate, numbers);
    }
    list_within::<MAX_KEYS, KEY_CELLS>(rows, baseline, candidate, numbers)
}

// Where a number points: a removed row of the baseline, or an added row of the candidate.
#[derive(Clone, Copy)]
struct Place {
    change: Change,
    row: usize,
}

fn place_of(nb: usize, i: usize) -> Place
    ensures { result ≡ place_at nb i }
{
    if i < nb {
        return Place {
            change: Change::Removed,
            row: i,
        };
    }
    Place {
        change: Change::Added,
        row: i - nb,
    }
}

// Table 8.
pub(crate) fn lay_exports(numbers: &[usize], nb: usize, table: &mut [usize])
    requires { (table.old ≡ laid (length table.old) []) × (length numbers.now * width 8 ≤ length table.old) }
    ensures { table.new ≡ laid (length table.old) (cells (place_cells nb) numbers.now) }
{
    for (j, &i) in numbers.iter().enumerate() {
        let place = place_of(nb, i);
        table::put_row(table, j, &[change_number(place.change), place.row]);
    }
}

// Table 9: the domain is told anew.
pub(crate) fn lay_needs(
    baseline: GivenModule,
    candidate: GivenModule,
    numbers: &[usize],
    table: &mut [usize],
)
    requires { (table.old ≡ laid (length table.old) []) × (length numbers.now * width 9 ≤ length table.old) }
    ensures { table.new ≡ laid (length table.old)
        (cells (need_cells_at (given_of baseline.entry) (given_of candidate.entry)) numbers.now) }
{
    for (j, &i) in numbers.iter().enumerate() {
        let place = place_of(baseline.imports.count, i);
        let domain = key_at(Rows::Needs, baseline, candidate, i).major;
        table::put_row(table, j, &[change_number(place.change), domain, place.row]);
    }
}

// One of the numbers is of this change.
fn has_change(numbers: &[usize], nb: usize, change: Change) -> bool
    ensures { result ≡ has_change nb change numbers.now }
{
    numbers.iter().any(|&i| place_of(nb, i).change == change)
}

// No export was removed, and no capability added.
pub(crate) fn breaks_nothing(baseline: GivenModule, exports: &[usize], needs: &[usize]) -> bool
    ensures { let b = baseline.entry in
        result ≡ not (has_change b.exports.count Removed exports.now) && not (has_change b.imports.count Added needs.now) }
{
    !has_change(exports, baseline.exports.count, Change::Removed)
        && !has_change(needs, baseline.imports.count, Change::Added)
}

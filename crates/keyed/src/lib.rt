// Two lists of keys in one table, and the rows of each whose key the other lacks. No file is asked for: a key is bytes and two numbers.
#![tactic(auto)]

mod marks;
mod quick;
mod ranks;
mod rows;

ghost use Rattle.std.specs.Prelude.{◌≡◌, [], ◌+◌, length};
ghost use Rattle.table.specs.Table.{laid};
ghost use Rattle.keyed.specs.Keying.{columns, missing, holds_all, Lacks};

use crate::quick::try_quick;
use crate::rows::KeyRows;
use sorting::Keys;

// A row has six cells: the list, 0 or 1, whose bytes its name lies in; the name's range; a number that counts before the name and one
// that counts after it; and 1 where the row is wanted.
pub const KEY_WIDTH: usize = 6;

pub(crate) const KEY_LIST: usize = 0;

pub(crate) const KEY_FROM: usize = 1;

pub(crate) const KEY_LEN: usize = 2;

pub(crate) const KEY_MAJOR: usize = 3;

pub(crate) const KEY_MINOR: usize = 4;

pub(crate) const KEY_MARK: usize = 5;

// How a table of keys is sorted.
pub(crate) fn columns(every: bool) -> Keys
    ensures { result ≡ columns every }
{
    Keys {
        width: KEY_WIDTH,
        mark: KEY_MARK,
        value: 1,
        major: KEY_MAJOR,
        file: KEY_LIST,
        from: KEY_FROM,
        len: KEY_LEN,
        minor: KEY_MINOR,
        every,
    }
}

// Each of three tables has a cell for every row of both lists.
pub(crate) fn has_room(nb: usize, nc: usize, ranks: usize, lost: usize, numbers: usize) -> bool
    ensures { result ≡ holds_all (nb + nc) ranks lost numbers }
{
    match nb.checked_add(nc) {
        Some(n) => n <= ranks && n <= lost && n <= numbers,
        None => false,
    }
}

// By prints, as long as a budget of bytes lasts, and else by ranks.
fn list_in<'a, 'b, 'c, 'd, 'e>(
    first: &'a [u8],
    second: &'a [u8],
    keys: &'b mut [usize],
    nb: usize,
    nc: usize,
    every: bool,
    ranks: &'c mut [usize],
    lost: &'d mut [usize],
    numbers: &'e mut [usize],
) -> Option<usize>
    ensures { Lacks (holds_all (nb + nc) (length ranks.old) (length lost.old) (length numbers.old))
        (missing first.now second.now keys.old nb (nb + nc) every)
        numbers.old numbers.new result }
{
    if !has_room(nb, nc, ranks.len(), lost.len(), numbers.len()) {
        table::clear(numbers);
        return None;
    }
    let n = nb + nc;
    let found = try_quick(first, second, keys, nb, n, ranks, lost);
    let rows = KeyRows {
        first,
        second,
        keys,
    };
    if found {
        return rows.by(columns(every)).sort(n, numbers);
    }
    rows.list_by_rank(nb, nc, every, ranks, lost, numbers)
}

// The numbers of the rows whose key the other list lacks, in order: those of the first list are numbered first. The other tables are lent
// to work in, and zero in the end; without a cell for every row in each of `ranks`, `lost` and `numbers` there is no room.
pub fn list_missing<'a, 'b, 'c, 'd, 'e>(
    first: &'a [u8],
    second: &'a [u8],
    keys: &'b mut [usize],
    nb: usize,
    nc: usize,
    every: bool,
    ranks: &'c mut [usize],
    lost: &'d mut [usize],
    numbers: &'e mut [usize],
) -> Option<usize>
    ensures { (Lacks (holds_all (nb + nc) (length ranks.old) (length lost.old) (length numbers.old))
        (missing first.now second.now keys.old nb (nb + nc) every)
        numbers.old numbers.new result)
        × (keys.new ≡ laid (length keys.old) [])
        × (ranks.new ≡ laid (length ranks.old) [])
        × (lost.new ≡ laid (length lost.old) []) }
{
    let sorted = list_in(first, second, keys, nb, nc, every, ranks, lost, numbers);
    table::clear(keys);
    table::clear(ranks);
    table::clear(lost);
    sorted
}

// Rows of keys: the name of a row, and whether two rows have one key.
ghost use Rattle.std.specs.Prelude.{◌≡◌};
ghost use Rattle.table.specs.Table.{cell_of};
ghost use Rattle.keyed.specs.Rows.{name_of, one_key};

use crate::{KEY_FROM, KEY_LEN, KEY_LIST, KEY_MAJOR, KEY_MINOR, KEY_WIDTH};
use sorting::{Keys, Rows};

// A table of keys, and the bytes of the two lists that their names are parts of.
#[derive(Clone, Copy)]
pub(crate) struct KeyRows<'a> {
    pub first: &'a [u8],
    pub second: &'a [u8],
    pub keys: &'a [usize],
}

impl<'a> KeyRows<'a> {
    // As they are to be sorted.
    pub(crate) fn by(self, keys: Keys) -> Rows<'a>
        ensures { result ≡ record { first = self.entry.first; second = self.entry.second; cells = self.entry.keys; keys = keys } }
    {
        Rows {
            first: self.first,
            second: self.second,
            cells: self.keys,
            keys,
        }
    }

    pub(crate) fn cell(self, i: usize, column: usize) -> usize
        ensures { result ≡ cell_of self.entry.keys.now 6 i column }
    {
        table::cell(self.keys, KEY_WIDTH, i, column)
    }

    // The name of row i, a part of its list's bytes.
    pub(crate) fn name(self, i: usize) -> &'a [u8]
        ensures { result.now ≡ name_of self.entry i }
    {
        let list = if self.cell(i, KEY_LIST) == 0 {
            self.first
        } else {
            self.second
        };
        table::range(list, self.cell(i, KEY_FROM), self.cell(i, KEY_LEN))
    }

    // Rows i and j have one key.
    pub(crate) fn same_key(self, i: usize, j: usize) -> bool
        ensures { result ≡ one_key self.entry i j }
    {
        self.cell(i, KEY_MAJOR) == self.cell(j, KEY_MAJOR)
            && self.cell(i, KEY_MINOR) == self.cell(j, KEY_MINOR)
            && self.name(i) == self.name(j)
    }
}

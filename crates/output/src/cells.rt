// Cells as bytes in a lent buffer: eight bytes a cell, the lowest first.
ghost use Rattle.std.specs.Prelude.{◌+◌, ◌*◌, ◌≤◌, ◌≡◌, length};
ghost use Rattle.table.specs.Table.{put};
ghost use Rattle.output.specs.Cells.{low_bytes, cell_bytes, Puts};

// How many bytes a cell has.
const CELL: usize = 8;

// The bytes of one cell, from `at` on.
fn put_cell(n: usize, out: &mut [u8], at: usize)
    requires { at + 8 ≤ length out.old }
    ensures { out.new ≡ put out.old at (low_bytes 8 n) }
{
    out[at..at + CELL].copy_from_slice(&n.to_le_bytes());
}

// The bytes of all cells, one cell after another, and the place after them.
fn put_all(cells: &[usize], out: &mut [u8], at: usize) -> usize
    requires { at + length cells.now * 8 ≤ length out.old }
    ensures value { result ≡ at + length cells.now * 8 }
    ensures out_after { out.new ≡ put out.old at (cell_bytes cells.now) }
{
    let mut o = at;
    for cell in cells {
        put_cell(*cell, out, o);
        o += CELL;
    }
    o
}

// The bytes of the cells from `at` on, and the place after them; nothing where there is no room for them all.
pub fn put_cells(cells: &[usize], out: &mut [u8], at: usize) -> usize
    ensures { Puts cells.now at out.old result out.new }
{
    if out.len() < at {
        return at;
    }
    // by division, as eight times the cells may be no usize
    if (out.len() - at) / CELL < cells.len() {
        return at;
    }
    put_all(cells, out, at)
}

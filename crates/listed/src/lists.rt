// Lists of cells, one after another.
ghost use Rattle.std.specs.Prelude.{◌+◌, ◌≤◌, ◌++◌, length};
ghost use Rattle.output.specs.Cells.{cell_bytes};
ghost use Rattle.output.specs.Bytes.{Formed};
ghost use Rattle.listed.specs.Delivered.{most_cells};

use output::cells::put_cells;
use refusal::Refusal;

// Four lists into the buffer, where it has room for all of them.
pub(crate) fn lay_four(
    a: &[usize],
    b: &[usize],
    c: &[usize],
    d: &[usize],
    out: &mut [u8],
) -> Result<usize, Refusal>
    requires { length a.now + length b.now + length c.now + length d.now ≤ most_cells }
    ensures { Formed (cell_bytes (a.now ++ b.now ++ c.now ++ d.now))
        out.old result out.new }
{
    let needed = (a.len() + b.len() + c.len() + d.len()) * 8;
    if out.len() < needed {
        return Err(Refusal::NoRoom(needed));
    }
    let first = put_cells(a, out, 0);
    let second = put_cells(b, out, first);
    let third = put_cells(c, out, second);
    Ok(put_cells(d, out, third))
}

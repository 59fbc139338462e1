// compat.rs: the name of a difference, handed back as a part of whichever file it came from.
ghost use Rattle.std.specs.Prelude.{◌≡◌};
ghost use Rattle.differences.specs.Part.{diff_bytes_at, block_at, offset_at, module_of};
ghost use Rattle.differences.specs.Part.{diff_bytes, diff_block, diff_offset};

use crate::{Change, GivenModule};
use table::given::GivenTable;
use table::shape::{EXPORT_WIDTH, IMPORT_WIDTH, MAX_EXPORTS, MAX_IMPORTS};

// The range at the first two cells of a row, a part of the file; the empty part at the baseline's start where the row is not below both
// its count and its table's capacity, or the range leaves the file.
fn part_of<'a, const WIDTH: usize, const MOST: usize>(
    baseline: &'a [u8],
    file: &'a [u8],
    rows: GivenTable,
    row: usize,
) -> &'a [u8]
    ensures { (result.now ≡ diff_bytes_at file.now WIDTH MOST rows.entry.cells.now rows.entry.count row)
        × (result.ref_ptr.0 ≡ block_at file.now WIDTH MOST rows.entry.cells.now rows.entry.count row file.entry.ref_ptr.0
        baseline.entry.ref_ptr.0)
        × (result.ref_ptr.1 ≡ offset_at file.now WIDTH MOST rows.entry.cells.now rows.entry.count row file.entry.ref_ptr.1
        baseline.entry.ref_ptr.1) }
{
    if rows.count <= row || table::capacity(rows.cells.len(), WIDTH, MOST) <= row {
        return &baseline[0..0];
    }
    let from = table::cell(rows.cells, WIDTH, row, 0);
    let len = table::cell(rows.cells, WIDTH, row, 1);
    if !refusal::fits(file.len(), from, len) {
        return &baseline[0..0];
    }
    &file[from..from + len]
}

// The module whose rows the change names: the baseline where it is a removal, and else the candidate.
fn module_of<'a, 'b>(
    baseline: GivenModule<'a, 'b>,
    candidate: GivenModule<'a, 'b>,
    change: Change,
) -> GivenModule<'a, 'b>
    ensures { result ≡ module_of baseline.entry candidate.entry change }
{
    match change {
        Change::Removed => baseline,
        Change::Added => candidate,
    }
}

// The name of an export that was removed from the baseline, or added in the candidate: a row of its table 3.
pub fn export_diff_name<'a, 'b>(
    baseline: GivenModule<'a, 'b>,
    candidate: GivenModule<'a, 'b>,
    change: Change,
    row: usize,
) -> &'a [u8]
    ensures { let b = baseline.entry in let c = candidate.entry in
        (result.now ≡ diff_bytes b.file.now b.exports.cells.now b.exports.count c.file.now c.exports.cells.now c.exports.count 3
        change row)
        × (result.ref_ptr.0 ≡ diff_block b.file.now b.exports.cells.now b.exports.count c.file.now c.exports.cells.now c.exports.count 3
        change row b.file.ref_ptr.0 c.file.ref_ptr.0)
        × (result.ref_ptr.1 ≡ diff_offset b.file.now b.exports.cells.now b.exports.count c.file.now c.exports.cells.now c.exports.count 3
        change row b.file.ref_ptr.1 c.file.ref_ptr.1) }
{
    let module = module_of(baseline, candidate, change);
    part_of::<EXPORT_WIDTH, MAX_EXPORTS>(baseline.file, module.file, module.exports, row)
}

// The module name of a pair that was removed or added: a row of its table 2.
pub fn capability_diff_source<'a, 'b>(
    baseline: GivenModule<'a, 'b>,
    candidate: GivenModule<'a, 'b>,
    change: Change,
    row: usize,
) -> &'a [u8]
    ensures { let b = baseline.entry in let c = candidate.entry in
        (result.now ≡ diff_bytes b.file.now b.imports.cells.now b.imports.count c.file.now c.imports.cells.now c.imports.count 2
        change row)
        × (result.ref_ptr.0 ≡ diff_block b.file.now b.imports.cells.now b.imports.count c.file.now c.imports.cells.now c.imports.count 2
        change row b.file.ref_ptr.0 c.file.ref_ptr.0)
        × (result.ref_ptr.1 ≡ diff_offset b.file.now b.imports.cells.now b.imports.count c.file.now c.imports.cells.now c.imports.count 2
        change row b.file.ref_ptr.1 c.file.ref_ptr.1) }
{
    let module = module_of(baseline, candidate, change);
    part_of::<IMPORT_WIDTH, MAX_IMPORTS>(baseline.file, module.file, module.imports, row)
}

// compat.rs: why a candidate cannot stand in for a baseline, in words.
#![tactic(auto)]

ghost use Rattle.std.specs.Prelude.{◌≡◌, ◌≤◌, ◌<◌, eqb, length};
ghost use Rattle.refusal.specs.Pick.{pick};
ghost use Rattle.refusal.specs.Sizes.{file_limit};
ghost use Rattle.refusal.specs.Said.{said_by};
ghost use Rattle.table.specs.Shape.{width, limit, cell_in};
ghost use Rattle.sorting.specs.Keys.{row_name};
ghost use Rattle.differences.specs.View.{export_key_at};
ghost use Rattle.differences.specs.Differences.{kind_slug};
ghost use Rattle.differences.specs.Compared.{given_of};
ghost use Rattle.output.specs.Bytes.{FormedFrom};
ghost use Rattle.output.specs.Writing.{Added};
ghost use Rattle.reasons.specs.Reasons.{export_reason, need_reason, diffs_of, export_reasons, need_reasons, KindsFit};
ghost use Rattle.reasons.specs.Reasons.{export_diff_fits, need_diff_fits, export_diffs_tested, need_diffs_tested};
ghost use Rattle.reasons.specs.Reasons.{diffs_tested, reasons_tested, export_row, need_row, reasons_of, KindFits, Reasons, ReasonsFrom};

use differences::{GivenModule, check_both};
use domains::LAST_DOMAIN;
use kinds::{kind_of, kind_slug};
use output::bytes::Writer;
use refusal::Refusal;
use table::given::GivenTable;
use table::shape::{
    EXPORT_DIFF_CHANGE, EXPORT_DIFF_ROW, EXPORT_DIFF_WIDTH, EXPORT_KIND, EXPORT_NAME, EXPORT_WIDTH,
    IMPORT_MODULE, IMPORT_WIDTH, MAX_EXPORT_DIFFS, MAX_NEED_DIFFS, NEED_DIFF_CHANGE,
    NEED_DIFF_DOMAIN, NEED_DIFF_ROW, NEED_DIFF_WIDTH, REMOVED,
};

// The two lists of differences that are handed in: tables 8 and 9.
#[derive(Clone, Copy)]
pub struct GivenDiffs<'a> {
    pub exports: GivenTable<'a>,
    pub needs: GivenTable<'a>,
}

// The count of the table that a row with this change points into: 0 is removed, any other number added.
fn side(change: usize, b: usize, c: usize) -> usize
    ensures { result ≡ pick (eqb change 0) b c }
{
    if change == REMOVED { b } else { c }
}

fn export_diff_fits(xd: &[usize], i: usize, nbe: usize, nce: usize) -> bool
    ensures { result ≡ export_diff_fits nbe nce xd.now i }
{
    table::cell(xd, EXPORT_DIFF_WIDTH, i, EXPORT_DIFF_ROW)
        < side(
            table::cell(xd, EXPORT_DIFF_WIDTH, i, EXPORT_DIFF_CHANGE),
            nbe,
            nce,
        )
}

fn need_diff_fits(cd: &[usize], i: usize, nbi: usize, nci: usize) -> bool
    ensures { result ≡ need_diff_fits nbi nci cd.now i }
{
    table::cell(cd, NEED_DIFF_WIDTH, i, NEED_DIFF_DOMAIN) <= LAST_DOMAIN
        && table::cell(cd, NEED_DIFF_WIDTH, i, NEED_DIFF_ROW)
            < side(
                table::cell(cd, NEED_DIFF_WIDTH, i, NEED_DIFF_CHANGE),
                nbi,
                nci,
            )
}

// 15 for table 8: each row against the table that it points into.
fn check_export_diffs(xd: GivenTable, nbe: usize, nce: usize) -> Result<(), Refusal>
    ensures { said_by result ≡ export_diffs_tested nbe nce xd.entry.cells.now xd.entry.count }
{
    xd.check_count(EXPORT_DIFF_WIDTH, MAX_EXPORT_DIFFS)?;
    table::refuse_row((0..xd.count).position(|i| !export_diff_fits(xd.cells, i, nbe, nce)))
}

// The same for table 9, and its domains.
fn check_need_diffs(cd: GivenTable, nbi: usize, nci: usize) -> Result<(), Refusal>
    ensures { said_by result ≡ need_diffs_tested nbi nci cd.entry.cells.now cd.entry.count }
{
    cd.check_count(NEED_DIFF_WIDTH, MAX_NEED_DIFFS)?;
    table::refuse_row((0..cd.count).position(|i| !need_diff_fits(cd.cells, i, nbi, nci)))
}

// 15 for table 8, then for table 9.
fn check_diffs(
    baseline: GivenModule,
    candidate: GivenModule,
    diffs: GivenDiffs,
) -> Result<(), Refusal>
    ensures { said_by result ≡ diffs_tested baseline.entry.exports.count candidate.entry.exports.count
        baseline.entry.imports.count candidate.entry.imports.count (diffs_of diffs.entry) }
{
    check_export_diffs(
        diffs.exports,
        baseline.exports.count,
        candidate.exports.count,
    )?;
    check_need_diffs(diffs.needs, baseline.imports.count, candidate.imports.count)
}

// 14 and 15 of all that is handed in.
fn check_reasons(
    baseline: GivenModule,
    candidate: GivenModule,
    diffs: GivenDiffs,
) -> Result<(), Refusal>
    ensures { said_by result ≡ reasons_tested (given_of baseline.entry) (given_of candidate.entry) (diffs_of diffs.entry) }
{
    check_both(baseline, candidate)?;
    check_diffs(baseline, candidate, diffs)
}

// The slug of a kind byte.
fn put_kind(out: &mut Writer, kind: usize)
    requires { kind ≤ 255 }
    ensures same_reference { out.new.out.ghost_name ≡ out.old.out.ghost_name }
    ensures added { Added out.old (kind_slug kind) out.new }
{
    let word = kind_slug(kind_of(kind as u8));
    let bytes = word.bytes;
    out.put(&bytes[..word.len]);
}

// The line for row i of table 3, which is no longer there.
fn put_export(out: &mut Writer, baseline: GivenModule, i: usize)
    requires { cell_in 3 baseline.exports.cells.now i 2 ≤ 255 }
    ensures same_reference { out.new.out.ghost_name ≡ out.old.out.ghost_name }
    ensures added { Added out.old (export_reason (export_key_at baseline.entry.file.now baseline.entry.exports.cells.now i)) out.new }
{
    let exports = baseline.exports.cells;
    let name = table::name(baseline.file, exports, EXPORT_WIDTH, i, EXPORT_NAME);
    let kind = table::cell(exports, EXPORT_WIDTH, i, EXPORT_KIND);
    out.put(b"export removed: ");
    out.put(name);
    out.put(b" (");
    put_kind(out, kind);
    out.put(b")\n");
}

// The line for a domain, needed by row i of table 2.
fn put_need(out: &mut Writer, candidate: GivenModule, domain: usize, i: usize)
    ensures same_reference { out.new.out.ghost_name ≡ out.old.out.ghost_name }
    ensures added { Added out.old
        (need_reason domain (row_name candidate.entry.file.now candidate.entry.imports.cells.now (width 2) 0 1 i)) out.new }
{
    let imports = candidate.imports.cells;
    let source = table::name(candidate.file, imports, IMPORT_WIDTH, i, IMPORT_MODULE);
    out.put(b"new capability required: ");
    out.put_domain(domain);
    out.put(b" via ");
    out.put(source);
    out.put(b"\n");
}

// The line for row i of table 8; none where the export was added.
fn put_export_row(out: &mut Writer, baseline: GivenModule, xd: &[usize], i: usize)
    requires { KindFits baseline.exports.cells.now xd.now i }
    ensures same_reference { out.new.out.ghost_name ≡ out.old.out.ghost_name }
    ensures added { Added out.old
        (export_row baseline.entry.file.now baseline.entry.exports.cells.now xd.now i) out.new }
{
    if table::cell(xd, EXPORT_DIFF_WIDTH, i, EXPORT_DIFF_CHANGE) != REMOVED {
        return;
    }
    let row = table::cell(xd, EXPORT_DIFF_WIDTH, i, EXPORT_DIFF_ROW);
    put_export(out, baseline, row);
}

// The line for row i of table 9; none where the capability was removed.
fn put_need_row(out: &mut Writer, candidate: GivenModule, cd: &[usize], i: usize)
    ensures same_reference { out.new.out.ghost_name ≡ out.old.out.ghost_name }
    ensures added { Added out.old
        (need_row candidate.entry.file.now candidate.entry.imports.cells.now cd.now i) out.new }
{
    if table::cell(cd, NEED_DIFF_WIDTH, i, NEED_DIFF_CHANGE) == REMOVED {
        return;
    }
    let domain = table::cell(cd, NEED_DIFF_WIDTH, i, NEED_DIFF_DOMAIN);
    let row = table::cell(cd, NEED_DIFF_WIDTH, i, NEED_DIFF_ROW);
    put_need(out, candidate, domain, row);
}

// The lines for the removed rows of table 8.
fn put_exports(out: &mut Writer, baseline: GivenModule, xd: GivenTable)
    requires { KindsFit baseline.exports.cells.now xd.cells.now xd.count }
    ensures same_reference { out.new.out.ghost_name ≡ out.old.out.ghost_name }
    ensures added { Added out.old
        (export_reasons baseline.entry.file.now baseline.entry.exports.cells.now xd.entry.cells.now xd.entry.count) out.new }
{
    for i in 0..xd.count {
        put_export_row(out, baseline, xd.cells, i);
    }
}

// The lines for the added rows of table 9. A loop of its own beside `put_exports`: one over a row's writer as a closure would have to say
// what each call leaves in the buffer, in more lines than the two loops have.
fn put_needs(out: &mut Writer, candidate: GivenModule, cd: GivenTable)
    ensures same_reference { out.new.out.ghost_name ≡ out.old.out.ghost_name }
    ensures added { Added out.old
        (need_reasons candidate.entry.file.now candidate.entry.imports.cells.now cd.entry.cells.now cd.entry.count) out.new }
{
    for i in 0..cd.count {
        put_need_row(out, candidate, cd.cells, i);
    }
}

// All the lines.
fn put_reasons(out: &mut Writer, baseline: GivenModule, candidate: GivenModule, diffs: GivenDiffs)
    requires { KindsFit baseline.exports.cells.now diffs.exports.cells.now diffs.exports.count }
    ensures same_reference { out.new.out.ghost_name ≡ out.old.out.ghost_name }
    ensures added { Added out.old
        (reasons_of (given_of baseline.entry) (given_of candidate.entry) (diffs_of diffs.entry)) out.new }
{
    put_exports(out, baseline, diffs.exports);
    put_needs(out, candidate, diffs.needs);
}

// The lines of tables that passed into the buffer from `at` on, where it has room for all of them.
fn write_reasons(
    baseline: GivenModule,
    candidate: GivenModule,
    diffs: GivenDiffs,
    out: &mut [u8],
    at: u32,
) -> Result<usize, Refusal>
    requires kinds_fit { KindsFit baseline.exports.cells.now diffs.exports.cells.now diffs.exports.count }
    requires baseline_len_bound { (length baseline.file.now ≤ file_limit) × (length candidate.file.now ≤ file_limit)
        × (diffs.exports.count ≤ limit 8) × (diffs.needs.count ≤ limit 9) }
    ensures { FormedFrom at (reasons_of (given_of baseline.entry) (given_of candidate.entry) (diffs_of diffs.entry))
        out.old result out.new }
{
    let from = at as usize;
    let mut counted = Writer::counting(out, from);
    put_reasons(&mut counted, baseline, candidate, diffs);
    let needed = counted.at;
    if out.len() < needed {
        return Err(Refusal::NoRoom(needed));
    }
    let mut written = Writer::writing(out, from);
    put_reasons(&mut written, baseline, candidate, diffs);
    Ok(written.at)
}

// Why the candidate cannot stand in for the baseline: a line for each removed export of table 8, then for each added capability of
// table 9, after the first `at` bytes of the buffer, and the place after them. 14, 15, and 16 last. Refused, nothing is touched;
// accepted, nothing but the text.
pub fn reasons_from(
    baseline: GivenModule,
    candidate: GivenModule,
    diffs: GivenDiffs,
    out: &mut [u8],
    at: u32,
) -> Result<usize, Refusal>
    ensures { ReasonsFrom at (given_of baseline.entry) (given_of candidate.entry) (diffs_of diffs.entry) out.old result
        out.new }
{
    check_reasons(baseline, candidate, diffs)?;
    write_reasons(baseline, candidate, diffs, out, at)
}

// The same from the start of the buffer on, and how many bytes they are.
pub fn breaking_reasons(
    baseline: GivenModule,
    candidate: GivenModule,
    diffs: GivenDiffs,
    out: &mut [u8],
) -> Result<usize, Refusal>
    ensures { Reasons (given_of baseline.entry) (given_of candidate.entry) (diffs_of diffs.entry) out.old result out.new }
{
    reasons_from(baseline, candidate, diffs, out, 0)
}

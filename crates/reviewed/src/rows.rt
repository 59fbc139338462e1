// A line for each row of a table that is to be told.
ghost use Rattle.std.specs.Prelude.{◌≡◌};
ghost use Rattle.table.specs.Shape.{width};
ghost use Rattle.sorting.specs.Keys.{row_name};
ghost use Rattle.domains.specs.Domain.{domain_number};
ghost use Rattle.verdicts.specs.Evaluate.{violates};
ghost use Rattle.differences.specs.View.{export_key_at};
ghost use Rattle.output.specs.Writing.{Added};
ghost use Rattle.reasons.specs.Reasons.{reason_lines};
ghost use Rattle.reviewed.specs.Texts.{nth, violation_text, kind_text, removed_text, added_text};
ghost use Rattle.reviewed.specs.Review.{violation_row, removed_row, added_row};

use crate::escape::put_quoted;
use differences::GivenModule;
use domains::classify::classify_import;
use domains::{Domain, domain_number};
use kinds::{kind_of, kind_slug};
use output::bytes::Writer;
use table::given::GivenTable;
use table::shape::{
    EXPORT_DIFF_CHANGE, EXPORT_DIFF_ROW, EXPORT_DIFF_WIDTH, EXPORT_KIND, EXPORT_NAME, EXPORT_WIDTH,
    FUNC, IMPORT_FIELD, IMPORT_KIND, IMPORT_MODULE, IMPORT_WIDTH, NEED_DIFF_CHANGE,
    NEED_DIFF_DOMAIN, NEED_DIFF_ROW, NEED_DIFF_WIDTH, REMOVED,
};
use verdicts::{Verdict, is_violation};

fn violated(verdicts: [Verdict; 7], domain: Domain) -> bool
    ensures { result ≡ violates (nth verdicts (domain_number domain)) }
{
    is_violation(verdicts[domain_number(domain)])
}

fn put_violation(out: &mut Writer, domain: usize, field: &[u8], source: &[u8])
    ensures same_reference { out.new.out.ghost_name ≡ out.old.out.ghost_name }
    ensures added { Added out.old (violation_text domain field.now source.now) out.new }
{
    out.put(b"  ");
    out.put_domain(domain);
    out.put(b" is not allowed: imports ");
    put_quoted(out, field);
    out.put(b" from ");
    put_quoted(out, source);
    out.put(b"\n");
}

// The line for row i of table 2; none where it is no function, or its domain does not violate.
fn put_violation_row(out: &mut Writer, candidate: GivenModule, verdicts: [Verdict; 7], i: usize)
    ensures same_reference { out.new.out.ghost_name ≡ out.old.out.ghost_name }
    ensures added { Added out.old
        (violation_row candidate.entry.file.now candidate.entry.imports.cells.now verdicts i) out.new }
{
    let file = candidate.file;
    let imports = candidate.imports.cells;
    if table::cell(imports, IMPORT_WIDTH, i, IMPORT_KIND) != FUNC {
        return;
    }
    let source = table::name(file, imports, IMPORT_WIDTH, i, IMPORT_MODULE);
    let field = table::name(file, imports, IMPORT_WIDTH, i, IMPORT_FIELD);
    let domain = classify_import(source, field);
    if !violated(verdicts, domain) {
        return;
    }
    put_violation(out, domain_number(domain), field, source);
}

// Each import that is not allowed.
pub(crate) fn put_violations(out: &mut Writer, candidate: GivenModule, verdicts: [Verdict; 7])
    ensures same_reference { out.new.out.ghost_name ≡ out.old.out.ghost_name }
    ensures added { Added out.old
        (reason_lines (violation_row candidate.entry.file.now candidate.entry.imports.cells.now verdicts)
        candidate.entry.imports.count) out.new }
{
    for i in 0..candidate.imports.count {
        put_violation_row(out, candidate, verdicts, i);
    }
}

// The word of a kind; none for a number that is no byte.
fn put_kind(out: &mut Writer, kind: usize)
    ensures same_reference { out.new.out.ghost_name ≡ out.old.out.ghost_name }
    ensures added { Added out.old (kind_text kind) out.new }
{
    if let Ok(kind) = u8::try_from(kind) {
        let word = kind_slug(kind_of(kind));
        let bytes = word.bytes;
        out.put(&bytes[..word.len]);
    }
}

// The line for row i of table 3, which is no longer there.
fn put_removed(out: &mut Writer, baseline: GivenModule, i: usize)
    ensures same_reference { out.new.out.ghost_name ≡ out.old.out.ghost_name }
    ensures added { Added out.old
        (removed_text (export_key_at baseline.entry.file.now baseline.entry.exports.cells.now i).name
        (export_key_at baseline.entry.file.now baseline.entry.exports.cells.now i).kind) out.new }
{
    let exports = baseline.exports.cells;
    let name = table::name(baseline.file, exports, EXPORT_WIDTH, i, EXPORT_NAME);
    let kind = table::cell(exports, EXPORT_WIDTH, i, EXPORT_KIND);
    out.put(b"export removed: ");
    put_quoted(out, name);
    out.put(b" (");
    put_kind(out, kind);
    out.put(b")\n");
}

// The line for row i of table 8; none where the export was added.
fn put_removed_row(out: &mut Writer, baseline: GivenModule, xd: &[usize], i: usize)
    ensures same_reference { out.new.out.ghost_name ≡ out.old.out.ghost_name }
    ensures added { Added out.old
        (removed_row baseline.entry.file.now baseline.entry.exports.cells.now xd.now i) out.new }
{
    if table::cell(xd, EXPORT_DIFF_WIDTH, i, EXPORT_DIFF_CHANGE) != REMOVED {
        return;
    }
    let row = table::cell(xd, EXPORT_DIFF_WIDTH, i, EXPORT_DIFF_ROW);
    put_removed(out, baseline, row);
}

// Each export that is gone.
pub(crate) fn put_gone(out: &mut Writer, baseline: GivenModule, xd: GivenTable)
    ensures same_reference { out.new.out.ghost_name ≡ out.old.out.ghost_name }
    ensures added { Added out.old
        (reason_lines (removed_row baseline.entry.file.now baseline.entry.exports.cells.now xd.entry.cells.now)
        xd.entry.count) out.new }
{
    for i in 0..xd.count {
        put_removed_row(out, baseline, xd.cells, i);
    }
}

// The line for a domain, needed by row i of table 2.
fn put_added(out: &mut Writer, candidate: GivenModule, domain: usize, i: usize)
    ensures same_reference { out.new.out.ghost_name ≡ out.old.out.ghost_name }
    ensures added { Added out.old
        (added_text domain (row_name candidate.entry.file.now candidate.entry.imports.cells.now (width 2) 0 1 i)) out.new }
{
    let imports = candidate.imports.cells;
    let source = table::name(candidate.file, imports, IMPORT_WIDTH, i, IMPORT_MODULE);
    out.put(b"new capability required: ");
    out.put_domain(domain);
    out.put(b" via ");
    put_quoted(out, source);
    out.put(b"\n");
}

// The line for row i of table 9; none where the capability was removed.
fn put_added_row(out: &mut Writer, candidate: GivenModule, cd: &[usize], i: usize)
    ensures same_reference { out.new.out.ghost_name ≡ out.old.out.ghost_name }
    ensures added { Added out.old
        (added_row candidate.entry.file.now candidate.entry.imports.cells.now cd.now i) out.new }
{
    if table::cell(cd, NEED_DIFF_WIDTH, i, NEED_DIFF_CHANGE) == REMOVED {
        return;
    }
    let domain = table::cell(cd, NEED_DIFF_WIDTH, i, NEED_DIFF_DOMAIN);
    let row = table::cell(cd, NEED_DIFF_WIDTH, i, NEED_DIFF_ROW);
    put_added(out, candidate, domain, row);
}

// Each capability that is new.
pub(crate) fn put_new(out: &mut Writer, candidate: GivenModule, cd: GivenTable)
    ensures same_reference { out.new.out.ghost_name ≡ out.old.out.ghost_name }
    ensures added { Added out.old
        (reason_lines (added_row candidate.entry.file.now candidate.entry.imports.cells.now cd.entry.cells.now)
        cd.entry.count) out.new }
{
    for i in 0..cd.count {
        put_added_row(out, candidate, cd.cells, i);
    }
}

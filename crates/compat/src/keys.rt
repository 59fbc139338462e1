// The rows that are compared, those of the baseline and then those of the candidate, as rows of one table of keys.
ghost use Rattle.std.specs.Prelude.{◌≡◌, [], ◌*◌, ◌≤◌, length};
ghost use Rattle.table.specs.Table.{laid, put_row};
ghost use Rattle.keyed.specs.Keying.{key_width};
ghost use Rattle.differences.specs.Compared.{given_of};
ghost use Rattle.compat.specs.Keying.{key_cells, export_key, need_key, row_key, row_count, keys_of, table_of};

use differences::{GivenModule, kind_rank};
use domains::classify::classify_import;
use domains::domain_number;
use keyed::KEY_WIDTH;
use table::shape::{
    EXPORT_KIND, EXPORT_NAME, EXPORT_WIDTH, FUNC, IMPORT_FIELD, IMPORT_KIND, IMPORT_MODULE,
    IMPORT_WIDTH, MAX_EXPORT_DIFFS,
};

// A table of keys has a row for each row of both modules; and one for few rows, which is cleared in no time.
pub(crate) const MAX_KEYS: usize = MAX_EXPORT_DIFFS;

pub(crate) const KEY_CELLS: usize = MAX_KEYS * KEY_WIDTH;

pub(crate) const FEW_KEYS: usize = 64;

pub(crate) const FEW_CELLS: usize = FEW_KEYS * KEY_WIDTH;

// Which rows of a module are compared: its exports, or what its function imports need.
#[derive(Clone, Copy)]
pub(crate) enum Rows {
    Exports,
    Needs,
}

#[derive(Clone, Copy)]
pub(crate) struct Key {
    // 0 for a row of the baseline, 1 for one of the candidate; and a range of its file
    pub(crate) file: usize,
    pub(crate) from: usize,
    pub(crate) len: usize,
    // a number that counts before the name, and one that counts after it
    pub(crate) major: usize,
    pub(crate) minor: usize,
    pub(crate) wanted: bool,
}

fn put_key(table: &mut [usize], count: usize, key: Key)
    ensures { table.new ≡ put_row table.old count (key_cells key) }
{
    let cells = [
        key.file,
        key.from,
        key.len,
        key.major,
        key.minor,
        usize::from(key.wanted),
    ];
    table::put_row(table, count, &cells);
}

fn export_key(side: usize, exports: &[usize], i: usize) -> Key
    ensures { result ≡ export_key side exports.now i }
{
    Key {
        file: side,
        from: table::cell(exports, EXPORT_WIDTH, i, EXPORT_NAME),
        len: table::cell(exports, EXPORT_WIDTH, i, EXPORT_NAME + 1),
        major: 0,
        minor: kind_rank(table::cell(exports, EXPORT_WIDTH, i, EXPORT_KIND)),
        wanted: true,
    }
}

// Only function imports count.
fn need_key(side: usize, file: &[u8], imports: &[usize], i: usize) -> Key
    ensures { result ≡ need_key side file.now imports.now i }
{
    let source = table::name(file, imports, IMPORT_WIDTH, i, IMPORT_MODULE);
    let field = table::name(file, imports, IMPORT_WIDTH, i, IMPORT_FIELD);
    Key {
        file: side,
        from: table::cell(imports, IMPORT_WIDTH, i, IMPORT_MODULE),
        len: table::cell(imports, IMPORT_WIDTH, i, IMPORT_MODULE + 1),
        major: domain_number(classify_import(source, field)),
        minor: 0,
        wanted: table::cell(imports, IMPORT_WIDTH, i, IMPORT_KIND) == FUNC,
    }
}

fn row_key(rows: Rows, side: usize, build: GivenModule, i: usize) -> Key
    ensures { result ≡ row_key rows side (given_of build.entry) i }
{
    match rows {
        Rows::Exports => export_key(side, build.exports.cells, i),
        Rows::Needs => need_key(side, build.file, build.imports.cells, i),
    }
}

// How many rows of a module there are to compare.
pub(crate) fn row_count(rows: Rows, build: GivenModule) -> usize
    ensures { result ≡ row_count rows (given_of build.entry) }
{
    match rows {
        Rows::Exports => build.exports.count,
        Rows::Needs => build.imports.count,
    }
}

// Row i of both: the baseline's rows stand first.
pub(crate) fn key_at(rows: Rows, baseline: GivenModule, candidate: GivenModule, i: usize) -> Key
    ensures { result ≡ keys_of rows (given_of baseline.entry) (given_of candidate.entry) i }
{
    let first = row_count(rows, baseline);
    if i < first {
        return row_key(rows, 0, baseline, i);
    }
    row_key(rows, 1, candidate, i - first)
}

// The first n rows of both.
pub(crate) fn fill_keys(
    rows: Rows,
    baseline: GivenModule,
    candidate: GivenModule,
    n: usize,
    keys: &mut [usize],
)
    requires { (keys.old ≡ laid (length keys.old) []) × (n * key_width ≤ length keys.old) }
    ensures { keys.new ≡ table_of (length keys.old)
        (keys_of rows (given_of baseline.entry) (given_of candidate.entry)) n }
{
    for i in 0..n {
        put_key(keys, i, key_at(rows, baseline, candidate, i));
    }
}

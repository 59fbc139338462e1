// compat.rs: what changed from a baseline to a candidate, what both hand in, and the name of a difference (parts).
#![tactic(auto)]

pub mod parts;

ghost use Rattle.std.specs.Prelude.{◌≡◌};
ghost use Rattle.refusal.specs.Said.{said_by};
ghost use Rattle.refusal.specs.Slug.{slug_of};
ghost use Rattle.differences.specs.Rank.{rank_of, change_word};
ghost use Rattle.differences.specs.Compared.{change_number, export_fits, exports_tested, given_of, tables_tested, both_tested};

use import_rows::check_imports;
use refusal::{MAX_FILE, Refusal, Slug, slug_of};
use table::given::GivenTable;
use table::shape::{EXPORT_KIND, EXPORT_NAME, EXPORT_WIDTH, GLOBAL, MAX_EXPORTS, TABLE};

// What is handed in of a module: its file, and tables 2 and 3. A part of the file may outlive the tables.
#[derive(Clone, Copy)]
pub struct GivenModule<'a, 'b> {
    pub file: &'a [u8],
    pub imports: GivenTable<'b>,
    pub exports: GivenTable<'b>,
}

// The number of a change is its cell in tables 8 and 9.
#[derive(Clone, Copy, PartialEq, Eq)]
pub enum Change {
    // in the baseline, and not in the candidate
    Removed = 0,
    // in the candidate, and not in the baseline
    Added = 1,
}

pub fn change_number(c: Change) -> usize
    ensures { result ≡ change_number c }
{
    c as usize
}

pub fn change_slug(c: Change) -> Slug
    ensures { result ≡ slug_of (change_word c) }
{
    match c {
        Change::Removed => slug_of(b"removed"),
        Change::Added => slug_of(b"added"),
    }
}

// The rank above every byte.
const LAST: usize = 256;

// Where a kind byte stands among the others by its slug: func, global, memory, other by byte, table.
pub fn kind_rank(kind: usize) -> usize
    ensures { result ≡ rank_of kind }
{
    match kind {
        TABLE => LAST,
        GLOBAL => 1,
        _ => kind,
    }
}

// A kind is a byte.
const MAX_KIND: usize = 255;

fn export_fits(length: usize, exports: &[usize], i: usize) -> bool
    ensures { result ≡ export_fits length exports.now i }
{
    let from = table::cell(exports, EXPORT_WIDTH, i, EXPORT_NAME);
    let len = table::cell(exports, EXPORT_WIDTH, i, EXPORT_NAME + 1);
    refusal::fits(length, from, len)
        && table::cell(exports, EXPORT_WIDTH, i, EXPORT_KIND) <= MAX_KIND
}

// 15 for table 3, handed in with a file of so many bytes: the count, then each row's range and kind.
pub fn check_exports(length: usize, exports: GivenTable) -> Result<(), Refusal>
    ensures { said_by result ≡ exports_tested length exports.entry.cells.now exports.entry.count }
{
    exports.check_count(EXPORT_WIDTH, MAX_EXPORTS)?;
    table::refuse_row((0..exports.count).position(|i| !export_fits(length, exports.cells, i)))
}

// 15 for tables 2 and 3 of a build.
pub fn check_tables(build: GivenModule) -> Result<(), Refusal>
    ensures { said_by result ≡ tables_tested (given_of build.entry) }
{
    check_imports(build.file.len(), build.imports)?;
    check_exports(build.file.len(), build.exports)
}

// 14 for either file, then 15 for the baseline's tables and for the candidate's.
pub fn check_both(baseline: GivenModule, candidate: GivenModule) -> Result<(), Refusal>
    ensures { said_by result ≡ both_tested (given_of baseline.entry) (given_of candidate.entry) }
{
    if baseline.file.len() > MAX_FILE || candidate.file.len() > MAX_FILE {
        return Err(Refusal::TooLong);
    }
    check_tables(baseline)?;
    check_tables(candidate)
}

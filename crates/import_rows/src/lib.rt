// wasm.rs: what the rows of table 2 answer: how many functions and memories are imported, and from which namespaces.
#![tactic(auto)]

ghost use Rattle.std.specs.Prelude.{◌≡◌, ◌≤◌, ◌<◌, ◌+◌, length, nat_eq, count_by};
ghost use Rattle.std.specs.List.{range_with_len};
ghost use Rattle.refusal.specs.Sizes.{fits_in};
ghost use Rattle.refusal.specs.Said.{said_by};
ghost use Rattle.table.specs.Listing.{ListsRows};
ghost use Rattle.import_rows.specs.Queries.{import_cell, given_of, number_fits, desc_fits, kind_fits, import_fits};
ghost use Rattle.import_rows.specs.Queries.{imports_tested, kinds_tested, imported_of, namespaces_of};

use refusal::{MAX_FILE, Refusal};
use table::given::GivenTable;
use table::shape::{
    FUNC, GLOBAL, IMPORT_FIELD, IMPORT_FLAG, IMPORT_GIVEN, IMPORT_KIND, IMPORT_MODULE, IMPORT_TYPE,
    IMPORT_WIDTH, MAX_IMPORTS, MEMORY, TABLE,
};

// The mark of an import of this kind: bit c - 5 is set where the number in cell c is there. Bit 0 of a flag says whether the most is.
fn given_of(kind: usize, flag: usize) -> usize
    ensures { result ≡ given_of kind flag }
{
    let most = (flag & 1) * 16;
    match kind {
        FUNC => 1,
        TABLE => 14 + most,
        MEMORY => 12 + most,
        GLOBAL => 34,
        _ => 0,
    }
}

// What is asked of one row takes the cells alone: the count says nothing of a row.

// The number in a column of row i is there, or 0.
fn number_fits(given: usize, imports: &[usize], i: usize, column: usize) -> bool
    requires { (5 ≤ column) × (column < 11) }
    ensures { result ≡ number_fits given imports.now i column }
{
    if (given >> (column - IMPORT_TYPE)) & 1 == 1 {
        return true;
    }
    table::cell(imports, IMPORT_WIDTH, i, column) == 0
}

// The mark of row i is that of its kind and flag, and a number that is not there is 0.
fn desc_fits(imports: &[usize], i: usize) -> bool
    ensures { result ≡ desc_fits imports.now i }
{
    let given = given_of(
        table::cell(imports, IMPORT_WIDTH, i, IMPORT_KIND),
        table::cell(imports, IMPORT_WIDTH, i, IMPORT_FLAG),
    );
    if table::cell(imports, IMPORT_WIDTH, i, IMPORT_GIVEN) != given {
        return false;
    }
    for column in IMPORT_TYPE..IMPORT_GIVEN {
        if !number_fits(given, imports, i, column) {
            return false;
        }
    }
    true
}

#[tactic(auto, unfolding(crate::specs::Queries::kind_fits))]
fn kind_fits(imports: &[usize], i: usize) -> bool
    ensures { result ≡ kind_fits imports.now i }
{
    table::cell(imports, IMPORT_WIDTH, i, IMPORT_KIND) <= 255 && desc_fits(imports, i)
}

// The name whose range is at a column of row i and at the next one lies in so many bytes.
fn name_fits(length: usize, imports: &[usize], i: usize, column: usize) -> bool
    requires { column < 11 }
    ensures { result ≡ fits_in length (import_cell imports.now i column) (import_cell imports.now i (column + 1)) }
{
    let from = table::cell(imports, IMPORT_WIDTH, i, column);
    let len = table::cell(imports, IMPORT_WIDTH, i, column + 1);
    refusal::fits(length, from, len)
}

#[tactic(auto, unfolding(crate::specs::Queries::import_fits))]
fn import_fits(length: usize, imports: &[usize], i: usize) -> bool
    ensures { result ≡ import_fits length imports.now i }
{
    name_fits(length, imports, i, IMPORT_MODULE)
        && name_fits(length, imports, i, IMPORT_FIELD)
        && kind_fits(imports, i)
}

// Table 2, handed in with a file of so many bytes: each row's ranges, kind and descriptor.
pub fn check_imports(length: usize, imports: GivenTable) -> Result<(), Refusal>
    ensures { said_by result ≡ imports_tested length imports.entry.cells.now imports.entry.count }
{
    imports.check_count(IMPORT_WIDTH, MAX_IMPORTS)?;
    table::refuse_row((0..imports.count).position(|i| !import_fits(length, imports.cells, i)))
}

// Table 2, handed in without a file: each row's kind and descriptor.
fn check_kinds(imports: GivenTable) -> Result<(), Refusal>
    ensures { said_by result ≡ kinds_tested imports.entry.cells.now imports.entry.count }
{
    imports.check_count(IMPORT_WIDTH, MAX_IMPORTS)?;
    table::refuse_row((0..imports.count).position(|i| !kind_fits(imports.cells, i)))
}

fn count_kind(imports: GivenTable, kind: usize) -> usize
    ensures { result ≡ count_by (λ i. nat_eq (import_cell imports.entry.cells.now i 4) kind)
        (range_with_len 0 imports.entry.count) }
{
    (0..imports.count)
        .filter(|i| table::cell(imports.cells, IMPORT_WIDTH, *i, IMPORT_KIND) == kind)
        .count()
}

fn imported(imports: GivenTable, kind: usize) -> Result<usize, Refusal>
    ensures { said_by result ≡ imported_of imports.entry.cells.now imports.entry.count kind }
{
    check_kinds(imports)?;
    Ok(count_kind(imports, kind))
}

pub fn imported_functions(imports: GivenTable) -> Result<usize, Refusal>
    ensures { said_by result ≡ imported_of imports.entry.cells.now imports.entry.count 0 }
{
    imported(imports, FUNC)
}

pub fn imported_memories(imports: GivenTable) -> Result<usize, Refusal>
    ensures { said_by result ≡ imported_of imports.entry.cells.now imports.entry.count 2 }
{
    imported(imports, MEMORY)
}

// Table 15: of each module name among the imports, of whatever kind, the lowest row, by bytes.
pub fn import_namespaces(
    file: &[u8],
    imports: GivenTable,
    sorted: &mut [usize],
) -> Result<usize, Refusal>
    ensures { ListsRows (namespaces_of file.now imports.entry.cells.now imports.entry.count (length sorted.old))
        sorted.old sorted.new (said_by result) }
{
    if file.len() > MAX_FILE {
        table::clear(sorted);
        return Err(Refusal::TooLong);
    }
    if let Err(why) = check_imports(file.len(), imports) {
        table::clear(sorted);
        return Err(why);
    }
    let keys = sorting::by_name(IMPORT_WIDTH, 0, 1, IMPORT_WIDTH, 0);
    let namespaces = sorting::Rows {
        first: file,
        second: file,
        cells: imports.cells,
        keys,
    };
    namespaces
        .sort(imports.count, sorted)
        .ok_or(Refusal::Full(15))
}

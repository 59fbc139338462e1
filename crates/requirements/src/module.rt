// The domains that a module asks for: table 7, lent as two columns.
ghost use Rattle.std.specs.Prelude.{◌≡◌, length, []};
ghost use Rattle.refusal.specs.Said.{said_by, refused_by};
ghost use Rattle.table.specs.Table.{laid};
ghost use Rattle.requirements.specs.Requirements.{room_of, function_rows, row_domain, module_rows, Requires};
ghost use Rattle.requirements.specs.Filling.{Fills};

use domains::classify::classify_import;
use domains::domain_number;
use refusal::{MAX_FILE, Refusal};
use table::given::GivenTable;
use table::shape::{
    FUNC, IMPORT_FIELD, IMPORT_KIND, IMPORT_MODULE, IMPORT_WIDTH, MAX_REQUIREMENTS,
    REQUIREMENT_WIDTH,
};

// A refusal, with both columns cleared.
pub fn refuse(why: Refusal, domains: &mut [usize], rows: &mut [usize]) -> Result<usize, Refusal>
    ensures { (said_by result ≡ refused_by why)
        × (domains.new ≡ laid (length domains.old) [])
        × (rows.new ≡ laid (length rows.old) []) }
{
    table::clear(domains);
    table::clear(rows);
    Err(why)
}

// The domain of the function that row i imports.
fn domain_at(file: &[u8], imports: &[usize], i: usize) -> usize
    ensures { result ≡ row_domain file.now imports.now i }
{
    let source = table::name(file, imports, IMPORT_WIDTH, i, IMPORT_MODULE);
    let field = table::name(file, imports, IMPORT_WIDTH, i, IMPORT_FIELD);
    domain_number(classify_import(source, field))
}

// The function imports below n, as far as the columns take them; how many there are, whether they have room or not.
fn list_functions(
    file: &[u8],
    imports: GivenTable,
    domains: &mut [usize],
    rows: &mut [usize],
) -> usize
    ensures { Fills (row_domain file.now imports.entry.cells.now)
        (function_rows imports.entry.cells.now imports.entry.count)
        domains.old domains.new rows.old rows.new result }
{
    table::clear(domains);
    table::clear(rows);
    let mut found = 0;
    for i in 0..imports.count {
        if table::cell(imports.cells, IMPORT_WIDTH, i, IMPORT_KIND) == FUNC {
            table::put_row(domains, found, &[domain_at(file, imports.cells, i)]);
            table::put_row(rows, found, &[i]);
            found += 1;
        }
    }
    found
}

// Table 7: of each function that is imported the domain and the row, in row order, repeats kept.
pub fn requirements_from_module(
    file: &[u8],
    imports: GivenTable,
    domains: &mut [usize],
    rows: &mut [usize],
) -> Result<usize, Refusal>
    ensures { Requires (row_domain file.now imports.entry.cells.now)
        (module_rows file.now imports.entry.cells.now imports.entry.count
        (room_of (length domains.old) (length rows.old)))
        domains.old domains.new rows.old rows.new (said_by result) }
{
    if file.len() > MAX_FILE {
        return refuse(Refusal::TooLong, domains, rows);
    }
    if let Err(why) = import_rows::check_imports(file.len(), imports) {
        return refuse(why, domains, rows);
    }
    let most = table::capacity(domains.len(), REQUIREMENT_WIDTH, MAX_REQUIREMENTS);
    let room = table::capacity(rows.len(), REQUIREMENT_WIDTH, most);
    let found = list_functions(file, imports, domains, rows);
    if room < found {
        return refuse(Refusal::Full(7), domains, rows);
    }
    Ok(found)
}

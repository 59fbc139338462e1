// The whole check in one call: a module's file held against a policy's text.
#![tactic(auto)]

ghost use Rattle.std.specs.Prelude.{◌≡◌, ◌≤◌, length};
ghost use Rattle.table.specs.Shape.{full_cells};
ghost use Rattle.wasm.specs.Lending.{sizes_of};
ghost use Rattle.conform.specs.Sound.{limits};
ghost use Rattle.verdicts.specs.Evaluate.{said_evaluation};
ghost use Rattle.checking.specs.Checking.{weighed, held_to, sized, read_then, checked_of};

use policy::{Policy, read_policy};
use refusal::{MAX_FILE, Refusal};
use requirements::module::requirements_from_module;
use table::given::GivenTable;
use table::shape::{
    EXPORT_CELLS, FEW_EXPORT_CELLS, FEW_IMPORT_CELLS, FEW_NAME_CELLS, FEW_SECTION_CELLS,
    IMPORT_CELLS, IMPORT_WIDTH, MAX_REQUIREMENTS, NAME_CELLS, SECTION_CELLS,
};
use text::pieces::test_text;
use verdicts::{Evaluation, evaluate_domains};
use wasm::LentTables;

// 14 of either, 4 of the text; the module's refusals; the policy's; then the verdicts.
pub fn check_module(file: &[u8], text: &[u8]) -> Result<Evaluation, Refusal>
    ensures { said_evaluation result ≡ checked_of file.now text.now }
{
    if file.len() > MAX_FILE {
        return Err(Refusal::TooLong);
    }
    test_text(text)?;
    check_file(file, text)
}

// Tables for few rows are cleared in no time: those at the limits are used where these are full.
fn check_file(file: &[u8], text: &[u8]) -> Result<Evaluation, Refusal>
    ensures { said_evaluation result ≡ read_then limits file.now text.now }
{
    match check_in::<FEW_SECTION_CELLS, FEW_IMPORT_CELLS, FEW_EXPORT_CELLS, FEW_NAME_CELLS>(
        file, text,
    ) {
        Err(Refusal::Full(_)) => {
            check_in::<SECTION_CELLS, IMPORT_CELLS, EXPORT_CELLS, NAME_CELLS>(file, text)
        }
        checked => checked,
    }
}

// The check with tables of so many cells.
fn check_in<const S: usize, const I: usize, const E: usize, const N: usize>(
    file: &[u8],
    text: &[u8],
) -> Result<Evaluation, Refusal>
    requires fits { (S ≤ 65536) × (I ≤ full_cells 2) × (E ≤ 65536) × (N ≤ 65536) }
    ensures { said_evaluation result ≡ read_then (sized S I E N) file.now text.now }
{
    let mut tables = LentTables {
        sections: &mut [0; S],
        imports: &mut [0; I],
        exports: &mut [0; E],
        names: &mut [0; N],
    };
    check_with(file, text, &mut tables)
}

// The file is read with the tables that are lent, and its rows are held to the text.
fn check_with(file: &[u8], text: &[u8], tables: &mut LentTables) -> Result<Evaluation, Refusal>
    requires { length tables.old.imports.now ≤ full_cells 2 }
    ensures { said_evaluation result ≡ read_then (sizes_of tables.old) file.now text.now }
{
    let m = wasm::read_module(file, tables)?;
    let end = m.imports * IMPORT_WIDTH;
    let rows = GivenTable {
        cells: &tables.imports[..end],
        count: m.imports,
    };
    hold_to(file, rows, text)
}

// The rows that were read, held to the policy that the text is.
fn hold_to(file: &[u8], imports: GivenTable, text: &[u8]) -> Result<Evaluation, Refusal>
    ensures { said_evaluation result ≡ held_to file.now imports.entry.cells.now imports.entry.count text.now }
{
    let p = read_policy(text)?;
    weigh(file, imports, p)
}

// The domains that the rows ask for, evaluated.
fn weigh(file: &[u8], imports: GivenTable, p: Policy) -> Result<Evaluation, Refusal>
    ensures { said_evaluation result ≡ weighed file.now imports.entry.cells.now imports.entry.count p }
{
    let mut domains = [0; MAX_REQUIREMENTS];
    let mut rows = [0; MAX_REQUIREMENTS];
    let k = requirements_from_module(file, imports, &mut domains, &mut rows)?;
    evaluate_domains(&domains, k, p)
}

// The plain reader, and then the eight rules of strict reading.
#![tactic(auto)]

mod again;
mod quick;
mod rules;

ghost use Rattle.std.specs.Prelude.{◌≡◌, ◌≤◌, length};
ghost use Rattle.refusal.specs.Said.{said_by};
ghost use Rattle.table.specs.Shape.{limit};
ghost use Rattle.wasm.specs.Module.{said_module, ModuleIs};
ghost use Rattle.wasm.specs.Lending.{lent, sizes_of, SameTables};
ghost use Rattle.conform.specs.Sound.{limits};
ghost use Rattle.strict.specs.Rules.{strict_at, rule_told, Judged, sized, tested_at};

use again::mark_sections;
use refusal::Refusal;
use rules::{Rule, lowest};
use table::shape::{
    EXPORT_CELLS, FEW_EXPORT_CELLS, FEW_IMPORT_CELLS, FEW_NAME_CELLS, FEW_SECTION_CELLS,
    IMPORT_CELLS, NAME_CELLS, SECTION_CELLS,
};
use wasm::{LentTables, Module};

// The second walk, and the rules, of the rows that a plain read left in tables 1 and 3. The lowest rule that is broken. The walk is
// refused nowhere where a plain read is not: what is told then is of no account.
fn judge(file: &[u8], m: Module, tables: &LentTables) -> Option<Rule>
    requires { m.exports ≤ limit 3 }
    ensures { Judged file.now m.version tables.now.sections.now m.sections
        tables.now.exports.now m.exports (rule_told result) }
{
    let Ok((marks, _)) = mark_sections(file) else {
        return None;
    };
    lowest(
        file,
        m.version,
        tables.sections,
        m.sections,
        tables.exports,
        m.exports,
        marks,
    )
}

// As `wasm::read_module`; what it accepts and a rule refuses is 20, and every table is zero again.
pub fn read_strict(file: &[u8], tables: &mut LentTables) -> Result<Module, Refusal>
    ensures same_tables { SameTables tables.old tables.new }
    ensures read { ModuleIs (length file.now) (sizes_of tables.old)
        (strict_at file.now (sizes_of tables.old)) (lent tables.new) (said_module result) }
{
    let module = wasm::read_module(file, tables)?;
    let Some(rule) = judge(file, module, tables) else {
        return Ok(module);
    };
    tables.clear();
    Err(Refusal::NotStrict(rule.number()))
}

// Whether the file is read strictly, with tables at the limits: 13 is a file beyond them.
pub fn test_strict(file: &[u8]) -> Result<(), Refusal>
    ensures { said_by result ≡ tested_at file.now limits }
{
    // Tables for few rows are cleared in no time: those at the limits are used where these are full.
    match test_in::<FEW_SECTION_CELLS, FEW_IMPORT_CELLS, FEW_EXPORT_CELLS, FEW_NAME_CELLS>(file) {
        Err(Refusal::Full(_)) => {
            test_in::<SECTION_CELLS, IMPORT_CELLS, EXPORT_CELLS, NAME_CELLS>(file)
        }
        tested => tested,
    }
}

// The verdict alone, with tables of so many cells.
fn test_in<const S: usize, const I: usize, const E: usize, const N: usize>(
    file: &[u8],
) -> Result<(), Refusal>
    requires fits { (S ≤ 65536) × (I ≤ 65536) × (E ≤ 65536) × (N ≤ 65536) }
    ensures { said_by result ≡ tested_at file.now (sized S I E N) }
{
    let mut tables = LentTables {
        sections: &mut [0; S],
        imports: &mut [0; I],
        exports: &mut [0; E],
        names: &mut [0; N],
    };
    read_strict(file, &mut tables)?;
    Ok(())
}

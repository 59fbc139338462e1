// wasm.rs: a module's file, as the rows of tables 1 to 4.
ghost use Rattle.std.specs.Prelude.{◌≡◌, ◌≤◌, length};
ghost use Rattle.refusal.specs.Said.{number_of, where_of, said_by};
ghost use Rattle.table.specs.Shape.{full_cells};
ghost use Rattle.wasm.specs.Module.{module_at};
ghost use Rattle.wasm.specs.Lending.{lent};
ghost use Rattle.conform.specs.Sound.{limits};
ghost use Rattle.output.specs.Bytes.{room_for};
ghost use Rattle.listed.specs.Delivered.{Lays, Delivers};
ghost use Rattle.listed.specs.Modules.{no_module, module_by, module_bytes, module_told, sized, Tried, ModuleCounted, taken_bytes};

use crate::lists::lay_four;
use refusal::{Part, Refusal};
use table::shape::{
    EXPORT_CELLS, EXPORT_WIDTH, FEW_EXPORT_CELLS, FEW_IMPORT_CELLS, FEW_NAME_CELLS,
    FEW_SECTION_CELLS, IMPORT_CELLS, IMPORT_WIDTH, NAME_CELLS, NAME_WIDTH, SECTION_CELLS,
    SECTION_WIDTH,
};
use wasm::{LentTables, Module};

// The cells of tables for the smallest modules: 8 sections, 4 imports, 4 exports, no function name.
const LEAST_SECTIONS: usize = 8 * SECTION_WIDTH;

const LEAST_IMPORTS: usize = 4 * IMPORT_WIDTH;

const LEAST_EXPORTS: usize = 4 * EXPORT_WIDTH;

// The offset beside 5, version, file length, the module's name, how many rows the tables have, and how many bytes these are.
#[repr(C)]
#[derive(Clone, Copy)]
pub struct ModuleTold {
    pub number: u32,
    pub place: usize,
    pub offset: usize,
    pub version: u32,
    pub length: usize,
    pub named: bool,
    pub start: usize,
    pub size: usize,
    pub sections: usize,
    pub imports: usize,
    pub exports: usize,
    pub symbols: usize,
    pub bytes: usize,
}

fn no_module(why: Refusal) -> ModuleTold
    ensures { result ≡ no_module (number_of why) (where_of why) }
{
    ModuleTold {
        number: refusal::number(why),
        place: refusal::place(why),
        offset: refusal::beside(why),
        version: 0,
        length: 0,
        named: false,
        start: 0,
        size: 0,
        sections: 0,
        imports: 0,
        exports: 0,
        symbols: 0,
        bytes: 0,
    }
}

fn module_of(m: Module, w: Result<usize, Refusal>) -> ModuleTold
    ensures { result ≡ module_by m (said_by w) }
{
    let name = m.name.unwrap_or(Part { from: 0, len: 0 });
    match w {
        Ok(bytes) => ModuleTold {
            number: 0,
            place: 0,
            offset: 0,
            version: m.version,
            length: m.length,
            named: m.name.is_some(),
            start: name.from,
            size: name.len,
            sections: m.sections,
            imports: m.imports,
            exports: m.exports,
            symbols: m.symbols,
            bytes,
        },
        Err(why) => no_module(why),
    }
}

// The rows that were read, one table after another.
fn lay_module(m: Module, tables: &LentTables, out: &mut [u8]) -> ModuleTold
    requires { ModuleCounted m (lent tables.now) }
    ensures { Lays (module_by m) (room_for (taken_bytes m (lent tables.now)) (length out.old)) out.old result out.new }
{
    let a = m.sections * SECTION_WIDTH;
    let b = m.imports * IMPORT_WIDTH;
    let c = m.exports * EXPORT_WIDTH;
    let d = m.symbols * NAME_WIDTH;
    module_of(
        m,
        lay_four(
            &tables.sections[..a],
            &tables.imports[..b],
            &tables.exports[..c],
            &tables.names[..d],
            out,
        ),
    )
}

// The file is read with tables of so many cells, and its rows are laid out; none where a table is full. Not merged with what calls it:
// so the pages of tables that are not used are not touched.
#[inline(never)]
fn list_in<const S: usize, const I: usize, const E: usize, const N: usize>(
    file: &[u8],
    out: &mut [u8],
) -> Option<ModuleTold>
    requires { (S ≤ full_cells 1) × (I ≤ full_cells 2) × (E ≤ full_cells 3) × (N ≤ full_cells 4) }
    ensures { Tried (sized S I E N) file.now out.old result out.new }
{
    let mut tables = LentTables {
        sections: &mut [0; S],
        imports: &mut [0; I],
        exports: &mut [0; E],
        names: &mut [0; N],
    };
    match wasm::read_module(file, &mut tables) {
        Ok(m) => Some(lay_module(m, &tables, out)),
        Err(Refusal::Full(_)) => None,
        Err(why) => Some(no_module(why)),
    }
}

// With tables at the limits, where a full one is an answer.
#[inline(never)]
fn list_all(file: &[u8], out: &mut [u8]) -> ModuleTold
    ensures { Delivers module_bytes (module_told (length file.now)) (module_at file.now limits)
        out.old result out.new }
{
    let mut tables = LentTables {
        sections: &mut [0; SECTION_CELLS],
        imports: &mut [0; IMPORT_CELLS],
        exports: &mut [0; EXPORT_CELLS],
        names: &mut [0; NAME_CELLS],
    };
    match wasm::read_module(file, &mut tables) {
        Ok(m) => lay_module(m, &tables, out),
        Err(why) => no_module(why),
    }
}

// What the reader refuses with tables at the limits, then 16. Small tables come first, and those for few rows, 16 to a table: these are
// cleared in no time.
pub fn list_module(file: &[u8], out: &mut [u8]) -> ModuleTold
    ensures { Delivers module_bytes (module_told (length file.now)) (module_at file.now limits)
        out.old result out.new }
{
    if let Some(told) = list_in::<LEAST_SECTIONS, LEAST_IMPORTS, LEAST_EXPORTS, 0>(file, out) {
        return told;
    }
    if let Some(told) = list_in::<
        FEW_SECTION_CELLS,
        FEW_IMPORT_CELLS,
        FEW_EXPORT_CELLS,
        FEW_NAME_CELLS,
    >(file, out)
    {
        return told;
    }
    list_all(file, out)
}

// wasm.rs with lent tables.
ghost use Rattle.std.specs.Prelude.{◌≡◌, length};
ghost use Rattle.refusal.specs.Said.{said_by};
ghost use Rattle.wasm.specs.Module.{sizes, lend, said_module, module_at};
ghost use Rattle.strict.specs.Rules.{strict_at};
ghost use Rattle.import_rows.specs.Queries.{imported_of, namespaces_of};
ghost use Rattle.requirements.specs.Requirements.{room_of, row_domain, module_rows};
ghost use Rattle.judged.specs.Rows.{part_told, module_answer, count_told, ModuleTells, ListTells, RequireTells};

use refusal::{Part, Refusal};
use table::given::GivenTable;
use wasm::{LentTables, Module};

#[repr(C)]
#[derive(Clone, Copy)]
pub struct ModuleTold {
    pub number: u32,
    pub place: usize,
    pub offset: usize,
    pub version: u32,
    pub length: usize,
    pub named: bool,
    pub start: usize,
    pub size: usize,
    pub sections: usize,
    pub imports: usize,
    pub exports: usize,
    pub symbols: usize,
}

#[repr(C)]
#[derive(Clone, Copy)]
pub struct CountTold {
    pub number: u32,
    pub place: usize,
    pub count: usize,
}

// Where a name stands; 0, 0 where there is none.
pub(crate) fn part_of(name: Option<Part>) -> Part
    ensures { result ≡ part_told name }
{
    name.unwrap_or(Part { from: 0, len: 0 })
}

fn module_of(r: Result<Module, Refusal>) -> ModuleTold
    ensures { result ≡ module_answer (said_module r) }
{
    match r {
        Ok(m) => ModuleTold {
            number: 0,
            place: 0,
            offset: 0,
            version: m.version,
            length: m.length,
            named: m.name.is_some(),
            start: part_of(m.name).from,
            size: part_of(m.name).len,
            sections: m.sections,
            imports: m.imports,
            exports: m.exports,
            symbols: m.symbols,
        },
        Err(why) => ModuleTold {
            number: refusal::number(why),
            place: refusal::place(why),
            offset: refusal::beside(why),
            version: 0,
            length: 0,
            named: false,
            start: 0,
            size: 0,
            sections: 0,
            imports: 0,
            exports: 0,
            symbols: 0,
        },
    }
}

pub(crate) fn count_of(r: Result<usize, Refusal>) -> CountTold
    ensures { result ≡ count_told (said_by r) }
{
    match r {
        Ok(count) => CountTold {
            number: 0,
            place: 0,
            count,
        },
        Err(why) => CountTold {
            number: refusal::number(why),
            place: refusal::place(why),
            count: 0,
        },
    }
}

pub fn judged_module(
    file: &[u8],
    sections: &mut [usize],
    imports: &mut [usize],
    exports: &mut [usize],
    names: &mut [usize],
) -> ModuleTold
    ensures { ModuleTells (length file.now)
        (sizes sections.old imports.old exports.old names.old)
        (module_at file.now (sizes sections.old imports.old exports.old names.old))
        (lend sections.new imports.new exports.new names.new) result }
{
    let mut tables = LentTables {
        sections,
        imports,
        exports,
        names,
    };
    module_of(wasm::read_module(file, &mut tables))
}

pub fn judged_strict(
    file: &[u8],
    sections: &mut [usize],
    imports: &mut [usize],
    exports: &mut [usize],
    names: &mut [usize],
) -> ModuleTold
    ensures { ModuleTells (length file.now)
        (sizes sections.old imports.old exports.old names.old)
        (strict_at file.now (sizes sections.old imports.old exports.old names.old))
        (lend sections.new imports.new exports.new names.new) result }
{
    let mut tables = LentTables {
        sections,
        imports,
        exports,
        names,
    };
    module_of(strict::read_strict(file, &mut tables))
}

pub fn judged_functions(imports: &[usize], n: usize) -> CountTold
    ensures { result ≡ count_told (imported_of imports.now n 0) }
{
    count_of(import_rows::imported_functions(GivenTable {
        cells: imports,
        count: n,
    }))
}

pub fn judged_memories(imports: &[usize], n: usize) -> CountTold
    ensures { result ≡ count_told (imported_of imports.now n 2) }
{
    count_of(import_rows::imported_memories(GivenTable {
        cells: imports,
        count: n,
    }))
}

pub fn judged_namespaces(
    file: &[u8],
    imports: &[usize],
    n: usize,
    sorted: &mut [usize],
) -> CountTold
    ensures { ListTells (namespaces_of file.now imports.now n (length sorted.old))
        sorted.old sorted.new result }
{
    let given = GivenTable {
        cells: imports,
        count: n,
    };
    count_of(import_rows::import_namespaces(file, given, sorted))
}

// Table 7: of each function that is imported the domain and the row.
pub fn judged_requirements(
    file: &[u8],
    imports: &[usize],
    domains: &mut [usize],
    rows: &mut [usize],
    n: usize,
) -> CountTold
    ensures { RequireTells (row_domain file.now imports.now)
        (module_rows file.now imports.now n (room_of (length domains.old) (length rows.old)))
        domains.old domains.new rows.old rows.new result }
{
    let given = GivenTable {
        cells: imports,
        count: n,
    };
    count_of(requirements::module::requirements_from_module(file, given, domains, rows))
}

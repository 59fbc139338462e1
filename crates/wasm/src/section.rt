// Sections: an id, a size, a payload that must be whole before it is looked into.
ghost use Rattle.std.specs.Prelude.{◌≡◌, ◌+◌, ◌≤◌, length};
ghost use Rattle.refusal.specs.Sizes.{file_limit};
ghost use Rattle.table.specs.Table.{put_row};
ghost use Rattle.table.specs.Told.{ReaderTells, Passed, Ends};
ghost use Rattle.table.specs.Walking.{walk_from};
ghost use Rattle.wasm.specs.Module.{section_cells, Tables, counts_of, Holds, Inside};
ghost use Rattle.wasm.specs.Lending.{lent, sizes_of, SameTables};
ghost use Rattle.wasm.specs.Module.{contents_of, contents_at, add_section, section_at, no_tables};
ghost use Rattle.wasm.specs.Answers.{said_got};

use crate::LentTables;
use crate::custom::{Named, read_custom};
use crate::entry::Got;
use crate::rows::{read_exports, read_imports};
use leb::Cursor;
use refusal::{Part, Refusal};
use table::shape::{MAX_SECTIONS, SECTION_WIDTH};

// A section's row: id, the payload's offset and size, a custom section's own name.
#[derive(Clone, Copy)]
pub(crate) struct Section {
    pub id: u8,
    pub from: usize,
    pub size: usize,
    pub name: Part,
}

// How many rows the tables have, and the module's name.
#[derive(Clone, Copy)]
pub(crate) struct Counts {
    pub sections: usize,
    pub imports: usize,
    pub exports: usize,
    pub named: Named,
}

#[derive(Clone, Copy)]
pub(crate) struct Contents {
    pub name: Part,
    pub counts: Counts,
}

// What is in a section, by its id: 2 and 7 start their table anew, 0 may add names, others are not looked into.
fn read_contents(
    id: u8,
    payload: &[u8],
    base: usize,
    n: Counts,
    tables: &mut LentTables,
) -> Got<Contents>
    requires { base + length payload.now ≤ file_limit }
    ensures same_tables { SameTables tables.old tables.new }
    ensures read { (t : Tables) → n ≡ counts_of t → Holds (lent tables.old) (sizes_of tables.old) t
        → ReaderTells contents_of (Inside (lent tables.new) (sizes_of tables.old))
        (contents_at id payload.now base (sizes_of tables.old) t) (said_got result) }
{
    let name = Part { from: 0, len: 0 };
    match id {
        0 => {
            let (custom, next) = read_custom(payload, base, n.named, tables.names)?;
            let counts = Counts {
                named: custom.inner,
                ..n
            };
            let name = custom.name;
            Ok((Contents { name, counts }, next))
        }
        2 => {
            let (rows, next) = read_imports(payload, base, tables.imports)?;
            let counts = Counts { imports: rows, ..n };
            Ok((Contents { name, counts }, next))
        }
        7 => {
            let (rows, next) = read_exports(payload, base, tables.exports)?;
            let counts = Counts { exports: rows, ..n };
            Ok((Contents { name, counts }, next))
        }
        _ => Ok((Contents { name, counts: n }, Cursor { at: 0 })),
    }
}

#[tactic(auto, unfolding(crate::specs::Module::section_cells))]
fn put_section(table: &mut [usize], count: usize, row: Section)
    ensures { table.new ≡ put_row table.old count (section_cells row) }
{
    let id = row.id as usize;
    let cells = [id, row.from, row.size, row.name.from, row.name.len];
    table::put_row(table, count, &cells);
}

// A section's row is taken after its contents are read.
fn take_section(tables: &mut LentTables, n: Counts, row: Section, next: Cursor) -> Got<Counts>
    ensures same_tables { SameTables tables.old tables.new }
    ensures ends { Ends next.at (said_got result) }
    ensures taken { (t : Tables) → n ≡ counts_of t → Holds (lent tables.old) (sizes_of tables.old) t
        → ReaderTells counts_of (Holds (lent tables.new) (sizes_of tables.old))
        (add_section (length tables.old.sections.now) row next.at t) (said_got result) }
{
    let room = table::capacity(tables.sections.len(), SECTION_WIDTH, MAX_SECTIONS);
    let k = n.sections;
    if k >= room {
        return Err(Refusal::Full(1));
    }
    put_section(tables.sections, k, row);
    Ok((
        Counts {
            sections: k + 1,
            ..n
        },
        next,
    ))
}

#[tactic(auto, using(crate::proofs::Reading::counted_inside))]
fn read_section(file: &[u8], c: Cursor, n: Counts, tables: &mut LentTables) -> Got<Counts>
    requires { length file.now ≤ file_limit }
    ensures same_tables { SameTables tables.old tables.new }
    ensures passed { Passed (length file.now) c.at (said_got result) }
    ensures read { (t : Tables) → n ≡ counts_of t → Holds (lent tables.old) (sizes_of tables.old) t
        → ReaderTells counts_of (Holds (lent tables.new) (sizes_of tables.old))
        (section_at file.now (sizes_of tables.old) c.at t) (said_got result) }
{
    let (id, after_id) = c.u8(file)?;
    let (p, next) = after_id.counted(file)?;
    let from = p.from;
    let size = p.len;
    let end = from + size;
    match read_contents(id, &file[from..end], from, n, tables) {
        Ok((inner, _)) => {
            let name = inner.name;
            let row = Section {
                id,
                from,
                size,
                name,
            };
            take_section(tables, inner.counts, row, next)
        }
        Err(why) => Err(refusal::moved(from, why)),
    }
}

// The loop alone: section after section, to the end of the file, into empty tables.
pub(crate) fn read_sections(file: &[u8], first: Cursor, tables: &mut LentTables) -> Got<Counts>
    requires file_len_bound { length file.now ≤ file_limit }
    requires holds { Holds (lent tables.old) (sizes_of tables.old) no_tables }
    ensures same_tables { SameTables tables.old tables.new }
    ensures read { ReaderTells counts_of (Holds (lent tables.new) (sizes_of tables.old))
        (walk_from (section_at file.now (sizes_of tables.old)) file.now first.at no_tables) (said_got result) }
{
    let mut c = first;
    let mut n = Counts {
        sections: 0,
        imports: 0,
        exports: 0,
        named: Named {
            label: None,
            count: 0,
        },
    };
    while c.at < file.len() {
        let (read, next) = read_section(file, c, n, tables)?;
        n = read;
        c = next;
    }
    Ok((n, c))
}

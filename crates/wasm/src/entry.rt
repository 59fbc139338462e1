// Entries of the import, export and name sections. An entry is read whole, its descriptor too, and goes into no table here.
// Ranges in an entry count from byte 0 of the file, in which the bytes that are read start at `base`.
ghost use Rattle.std.specs.Prelude.{◌≡◌, ◌+◌, ◌≤◌, length};
ghost use Rattle.refusal.specs.Sizes.{file_limit};
ghost use Rattle.wasm.specs.Entry.{limits_at, func_at, table_at, memory_at, global_at, desc_at, moved, import_at, export_at, symbol_at};
ghost use Rattle.wasm.specs.Answers.{said_got};

use leb::Cursor;
use refusal::{Part, Refusal};

// What a reader answers: what it read, and the cursor after it.
pub(crate) type Got<T> = Result<(T, Cursor), Refusal>;

#[derive(Clone, Copy)]
pub(crate) struct Limits {
    pub flag: u8,
    pub least: u32,
    pub most: Option<u32>,
}

// What an import asks for: a type index; an element type and limits; limits; a value type and mutability.
#[derive(Clone, Copy)]
pub(crate) enum Desc {
    Func(u32),
    Table(u8, Limits),
    Memory(Limits),
    Global(u8, u8),
}

#[derive(Clone, Copy)]
pub(crate) struct Import {
    pub module: Part,
    pub field: Part,
    pub kind: u8,
    pub desc: Desc,
}

#[derive(Clone, Copy)]
pub(crate) struct Export {
    pub name: Part,
    pub kind: u8,
    pub index: u32,
}

// A function's name.
#[derive(Clone, Copy)]
pub(crate) struct Symbol {
    pub index: u32,
    pub name: Part,
}

#[tactic(auto, using(crate::proofs::Flag::flag_reads), unfolding(crate::specs::Entry::limits_at))]
fn read_limits(s: &[u8], c: Cursor) -> Got<Limits>
    ensures { said_got result ≡ limits_at s.now c.at }
{
    let (flag, after_flag) = c.u8(s)?;
    let (least, after_least) = after_flag.uleb128_u32(s)?;
    if flag & 1 == 0 {
        return Ok((
            Limits {
                flag,
                least,
                most: None,
            },
            after_least,
        ));
    }
    let (most, next) = after_least.uleb128_u32(s)?;
    Ok((
        Limits {
            flag,
            least,
            most: Some(most),
        },
        next,
    ))
}

#[tactic(auto, using(crate::proofs::Reading::reads), unfolding(crate::specs::Entry::func_at))]
fn read_func(s: &[u8], c: Cursor) -> Got<Desc>
    ensures { said_got result ≡ func_at s.now c.at }
{
    let (index, next) = c.uleb128_u32(s)?;
    Ok((Desc::Func(index), next))
}

#[tactic(auto, using(crate::proofs::Reading::reads), unfolding(crate::specs::Entry::table_at))]
fn read_table(s: &[u8], c: Cursor) -> Got<Desc>
    ensures { said_got result ≡ table_at s.now c.at }
{
    let (element, after_element) = c.u8(s)?;
    let (limits, next) = read_limits(s, after_element)?;
    Ok((Desc::Table(element, limits), next))
}

#[tactic(auto, using(crate::proofs::Reading::reads), unfolding(crate::specs::Entry::memory_at))]
fn read_memory(s: &[u8], c: Cursor) -> Got<Desc>
    ensures { said_got result ≡ memory_at s.now c.at }
{
    let (limits, next) = read_limits(s, c)?;
    Ok((Desc::Memory(limits), next))
}

#[tactic(auto, using(crate::proofs::Reading::reads), unfolding(crate::specs::Entry::global_at))]
fn read_global(s: &[u8], c: Cursor) -> Got<Desc>
    ensures { said_got result ≡ global_at s.now c.at }
{
    let (value, after_value) = c.u8(s)?;
    let (mutable, next) = after_value.u8(s)?;
    Ok((Desc::Global(value, mutable), next))
}

// Any other kind is refused before anything after it is read; `at` is where the kind byte lies.
#[tactic(auto, using(crate::proofs::Reading::reads), unfolding(crate::specs::Entry::desc_at))]
fn read_desc(s: &[u8], kind: u8, at: usize, c: Cursor) -> Got<Desc>
    ensures { said_got result ≡ desc_at s.now kind at c.at }
{
    match kind {
        0 => read_func(s, c),
        1 => read_table(s, c),
        2 => read_memory(s, c),
        3 => read_global(s, c),
        _ => Err(Refusal::MalformedSection(kind as usize, at)),
    }
}

// A range of the bytes that are read as a range of the file.
pub(crate) fn shift(base: usize, p: Part) -> Part
    requires { base + p.from ≤ file_limit }
    ensures { result ≡ moved base p }
{
    Part {
        from: base + p.from,
        len: p.len,
    }
}

#[tactic(auto, using(crate::proofs::Reading::reads, crate::proofs::Reading::name_inside), unfolding(crate::specs::Entry::import_at))]
pub(crate) fn read_import(s: &[u8], base: usize, c: Cursor) -> Got<Import>
    requires { base + length s.now ≤ file_limit }
    ensures { said_got result ≡ import_at s.now base c.at }
{
    let (module, after_module) = c.name(s)?;
    let (field, after_field) = after_module.name(s)?;
    let (kind, after_kind) = after_field.u8(s)?;
    let (desc, next) = read_desc(s, kind, after_field.at, after_kind)?;
    Ok((
        Import {
            module: shift(base, module),
            field: shift(base, field),
            kind,
            desc,
        },
        next,
    ))
}

#[tactic(auto, using(crate::proofs::Reading::reads, crate::proofs::Reading::name_inside), unfolding(crate::specs::Entry::export_at))]
pub(crate) fn read_export(s: &[u8], base: usize, c: Cursor) -> Got<Export>
    requires { base + length s.now ≤ file_limit }
    ensures { said_got result ≡ export_at s.now base c.at }
{
    let (name, after_name) = c.name(s)?;
    let (kind, after_kind) = after_name.u8(s)?;
    let (index, next) = after_kind.uleb128_u32(s)?;
    Ok((
        Export {
            name: shift(base, name),
            kind,
            index,
        },
        next,
    ))
}

#[tactic(auto, using(crate::proofs::Reading::reads, crate::proofs::Reading::name_inside), unfolding(crate::specs::Entry::symbol_at))]
pub(crate) fn read_symbol(s: &[u8], base: usize, c: Cursor) -> Got<Symbol>
    requires { base + length s.now ≤ file_limit }
    ensures { said_got result ≡ symbol_at s.now base c.at }
{
    let (index, after_index) = c.uleb128_u32(s)?;
    let (name, next) = after_index.name(s)?;
    Ok((
        Symbol {
            index,
            name: shift(base, name),
        },
        next,
    ))
}

// The second walk: what the strict rules ask that the rows do not tell. It reads what the plain reader reads, number by number.
ghost use Rattle.std.specs.Prelude.{◌≡◌, ◌<◌, length};
ghost use Rattle.leb.specs.Reads.{u32_at, counted_at};
ghost use Rattle.wasm.specs.Answers.{said_got};
ghost use Rattle.table.specs.Told.{Passed};
ghost use Rattle.table.specs.Walking.{walk_from};
ghost use Rattle.strict.specs.Again.{frame_at, with_number, with_entries, with_flag};
ghost use Rattle.strict.specs.Again.{number_marks, part_marks, limits_marks, table_marks, global_marks, desc_marks};
ghost use Rattle.strict.specs.Again.{import_marks, export_marks, symbol_marks, entry_marks, run_from, run_marks, told_marks};
ghost use Rattle.strict.specs.Again.{subsection_marks, custom_marks, list_marks, contents_marks, section_marks, marks_at};

use leb::Cursor;
use refusal::{Part, Refusal};

// What the rules name: the most bytes of a number (rule 2), the last limits flag and the last mutability (8).
const MOST_BYTES: usize = 5;

const LAST_FLAG: u8 = 1;

// From here on a byte of a number is followed by another.
const MORE: u8 = 128;

// What one is worth in the second byte of a number.
const GROUP: u32 = 128;

// And in the third and the fourth; then what it comes to that the three before say that another follows.
const THIRD: u32 = 16384;

const FOURTH: u32 = 2097152;

const FOLLOWED: u32 = 2113664;

// The bytes of a size of 2 MiB and more.
const LONG: usize = 4;

// Where a payload starts.
const START: Cursor = Cursor { at: 0 };

// Where the sections start: after the magic and the version.
const HEADER: usize = 8;

// The ids of the sections whose entries are walked.
const IMPORTS: u8 = 2;

const EXPORTS: u8 = 7;

// What holds so far: every number takes at most five bytes (rule 2), every import and export section is used to its last byte (5),
// every limits flag and mutability is 0 or 1 (8).
#[derive(Clone, Copy)]
pub(crate) struct Marks {
    pub short: bool,
    pub used: bool,
    pub plain: bool,
}

// A value that was read, and the cursor after it.
type Walked<T> = Result<(T, Cursor), Refusal>;

// An id, a size and so many bytes, and what holds after the size.
#[derive(Clone, Copy)]
struct Frame {
    id: u8,
    bytes: Part,
    marks: Marks,
}

impl Marks {
    // A number took so many bytes.
    fn with_number(self, taken: usize) -> Marks
        ensures { result ≡ with_number self taken }
    {
        Marks {
            short: taken <= MOST_BYTES && self.short,
            ..self
        }
    }

    // The entries of a section ended at `at` of so many bytes.
    fn with_entries(self, at: usize, size: usize) -> Marks
        ensures { result ≡ with_entries self at size }
    {
        Marks {
            used: at == size && self.used,
            ..self
        }
    }

    // A limits flag, or a mutability.
    fn with_flag(self, byte: u8) -> Marks
        ensures { result ≡ with_flag self byte }
    {
        Marks {
            plain: byte <= LAST_FLAG && self.plain,
            ..self
        }
    }
}

fn wide(b: u8) -> u32
    ensures { (result ≡ b) × (result < 256) }
{
    b as u32
}

// As `uleb128_u32`; a number of one byte or two, as nearly every one is, is told at once.
fn read_number(s: &[u8], c: Cursor) -> Walked<u32>
    ensures { said_got result ≡ u32_at s.now c.at }
{
    let at = c.at;
    if at < s.len() {
        let byte = s[at];
        if byte < MORE {
            return Ok((byte as u32, Cursor { at: at + 1 }));
        }
        if at + 1 < s.len() {
            let high = s[at + 1];
            if high < MORE {
                let sum = wide(byte) + GROUP * wide(high);
                return Ok((sum - GROUP, Cursor { at: at + 2 }));
            }
        }
    }
    Ok(c.uleb128_u32(s)?)
}

// As `read_number`; a number of four bytes, as the size of a long section is, is told at once too.
fn read_size(s: &[u8], c: Cursor) -> Walked<u32>
    ensures { said_got result ≡ u32_at s.now c.at }
{
    let at = c.at;
    if LONG <= c.remaining(s) {
        let first = wide(s[at]);
        if GROUP <= first {
            let second = wide(s[at + 1]);
            let third = wide(s[at + 2]);
            let last = wide(s[at + 3]);
            if GROUP <= second && GROUP <= third && last < GROUP {
                let sum = first + GROUP * second + THIRD * third + FOURTH * last;
                return Ok((sum - FOLLOWED, Cursor { at: at + LONG }));
            }
        }
    }
    read_number(s, c)
}

// As `counted`.
fn read_part(s: &[u8], c: Cursor) -> Walked<Part>
    ensures { said_got result ≡ counted_at s.now c.at }
{
    let (len, next) = read_number(s, c)?;
    Ok(next.take(s, len as usize)?)
}

// What a section and a subsection begin with. Merged with the walk: that is faster.
#[inline(always)]
fn read_frame(s: &[u8], c: Cursor, m: Marks) -> Walked<Frame>
    ensures { said_got result ≡ frame_at s.now c.at m }
{
    let (id, after_id) = c.u8(s)?;
    let (len, after_size) = read_size(s, after_id)?;
    let (bytes, next) = after_size.take(s, len as usize)?;
    let marks = m.with_number(bytes.from - after_id.at);
    Ok((Frame { id, bytes, marks }, next))
}

fn mark_number(s: &[u8], c: Cursor, m: Marks) -> Walked<Marks>
    ensures { said_got result ≡ number_marks s.now c.at m }
{
    let (_, next) = read_number(s, c)?;
    Ok((m.with_number(next.at - c.at), next))
}

// A size or a name: its length, and so many bytes. That a name is well formed is known from the plain read.
fn mark_part(s: &[u8], c: Cursor, m: Marks) -> Walked<Marks>
    ensures { said_got result ≡ part_marks s.now c.at m }
{
    let (p, next) = read_part(s, c)?;
    Ok((m.with_number(p.from - c.at), next))
}

fn mark_limits(s: &[u8], c: Cursor, m: Marks) -> Walked<Marks>
    ensures { said_got result ≡ limits_marks s.now c.at m }
{
    let (flag, after_flag) = c.u8(s)?;
    let (k, after_least) = mark_number(s, after_flag, m.with_flag(flag))?;
    if flag & 1 == 0 {
        return Ok((k, after_least));
    }
    mark_number(s, after_least, k)
}

fn mark_table(s: &[u8], c: Cursor, m: Marks) -> Walked<Marks>
    ensures { said_got result ≡ table_marks s.now c.at m }
{
    let (_, after_element) = c.u8(s)?;
    mark_limits(s, after_element, m)
}

fn mark_global(s: &[u8], c: Cursor, m: Marks) -> Walked<Marks>
    ensures { said_got result ≡ global_marks s.now c.at m }
{
    let (_, after_value) = c.u8(s)?;
    let (mutable, next) = after_value.u8(s)?;
    Ok((m.with_flag(mutable), next))
}

fn mark_desc(s: &[u8], kind: u8, c: Cursor, m: Marks) -> Walked<Marks>
    ensures { said_got result ≡ desc_marks s.now kind c.at m }
{
    match kind {
        0 => mark_number(s, c, m),
        1 => mark_table(s, c, m),
        2 => mark_limits(s, c, m),
        3 => mark_global(s, c, m),
        _ => Err(Refusal::MalformedSection(kind as usize, c.at)),
    }
}

fn mark_import(s: &[u8], c: Cursor, m: Marks) -> Walked<Marks>
    ensures { said_got result ≡ import_marks s.now c.at m }
{
    let (k, after_module) = mark_part(s, c, m)?;
    let (l, after_field) = mark_part(s, after_module, k)?;
    let (kind, after_kind) = after_field.u8(s)?;
    mark_desc(s, kind, after_kind, l)
}

fn mark_export(s: &[u8], c: Cursor, m: Marks) -> Walked<Marks>
    ensures { said_got result ≡ export_marks s.now c.at m }
{
    let (k, after_name) = mark_part(s, c, m)?;
    let (_, after_kind) = after_name.u8(s)?;
    mark_number(s, after_kind, k)
}

fn mark_symbol(s: &[u8], c: Cursor, m: Marks) -> Walked<Marks>
    ensures { said_got result ≡ symbol_marks s.now c.at m }
{
    let (k, after_index) = mark_number(s, c, m)?;
    mark_part(s, after_index, k)
}

// An entry of section 2 or 7, or of the function names.
fn mark_entry(which: u8, s: &[u8], c: Cursor, m: Marks) -> Walked<Marks>
    ensures { said_got result ≡ entry_marks which s.now c.at m }
{
    match which {
        IMPORTS => mark_import(s, c, m),
        EXPORTS => mark_export(s, c, m),
        _ => mark_symbol(s, c, m),
    }
}

// A count, then so many entries.
fn mark_run(which: u8, s: &[u8], m: Marks) -> Walked<Marks>
    ensures { said_got result ≡ run_marks which s.now m }
{
    let (count, first) = read_number(s, START)?;
    let mut c = first;
    let mut k = m.with_number(first.at);
    for _ in 0..count {
        (k, c) = mark_entry(which, s, c, k)?;
    }
    Ok((k, c))
}

// What a subsection tells, by its id.
fn mark_told(id: u8, s: &[u8], m: Marks) -> Walked<Marks>
    ensures { said_got result ≡ told_marks id s.now m }
{
    match id {
        0 => mark_part(s, START, m),
        1 => mark_run(1, s, m),
        _ => Ok((m, START)),
    }
}

// One subsection: an id, a size, its bytes.
fn mark_subsection(s: &[u8], c: Cursor, m: Marks) -> Walked<Marks>
    ensures { Passed (length s.now) c.at (said_got result) ×
        (said_got result ≡ subsection_marks s.now c.at m) }
{
    let (frame, next) = read_frame(s, c, m)?;
    let from = frame.bytes.from;
    let end = from + frame.bytes.len;
    let (k, _) = mark_told(frame.id, &s[from..end], frame.marks)?;
    Ok((k, next))
}

// The loop alone: subsection after subsection, to the end of the payload.
fn mark_subsections(s: &[u8], first: Cursor, have: Marks) -> Walked<Marks>
    ensures { said_got result ≡ walk_from (subsection_marks s.now) s.now first.at have }
{
    let mut c = first;
    let mut m = have;
    while c.at < s.len() {
        (m, c) = mark_subsection(s, c, m)?;
    }
    Ok((m, c))
}

// A custom section: its own name, and what a section named `name` tells.
fn mark_custom(s: &[u8], m: Marks) -> Walked<Marks>
    ensures { said_got result ≡ custom_marks s.now m }
{
    let (p, c) = read_part(s, START)?;
    let from = p.from;
    let end = from + p.len;
    let k = m.with_number(from);
    if !text::order::equal(&s[from..end], b"name") {
        return Ok((k, c));
    }
    mark_subsections(s, c, k)
}

// The entries of section 2 or 7: they must end where the section does.
fn mark_list(id: u8, s: &[u8], m: Marks) -> Walked<Marks>
    ensures { said_got result ≡ list_marks id s.now m }
{
    let (k, end) = mark_run(id, s, m)?;
    Ok((k.with_entries(end.at, s.len()), end))
}

// What is in a section, by its id: those that the plain reader does not look into are not looked into here.
fn mark_contents(id: u8, s: &[u8], m: Marks) -> Walked<Marks>
    ensures { said_got result ≡ contents_marks id s.now m }
{
    match id {
        0 => mark_custom(s, m),
        IMPORTS | EXPORTS => mark_list(id, s, m),
        _ => Ok((m, START)),
    }
}

// One section: an id, a size, its bytes. As a subsection; one function of both would call itself, through a custom section's contents.
fn mark_section(file: &[u8], c: Cursor, m: Marks) -> Walked<Marks>
    ensures { Passed (length file.now) c.at (said_got result) ×
        (said_got result ≡ section_marks file.now c.at m) }
{
    let (frame, next) = read_frame(file, c, m)?;
    let from = frame.bytes.from;
    let end = from + frame.bytes.len;
    let (k, _) = mark_contents(frame.id, &file[from..end], frame.marks)?;
    Ok((k, next))
}

// Section after section, from the end of the header to the end of the file. With the subsections' loop in common this would be longer.
pub(crate) fn mark_sections(file: &[u8]) -> Walked<Marks>
    ensures { said_got result ≡ marks_at file.now }
{
    let mut c = Cursor { at: HEADER };
    let mut m = Marks {
        short: true,
        used: true,
        plain: true,
    };
    while c.at < file.len() {
        (m, c) = mark_section(file, c, m)?;
    }
    Ok((m, c))
}

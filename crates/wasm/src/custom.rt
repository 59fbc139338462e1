// Custom sections, and the name section: subsection 0 names the module, the last wins; 1 adds function names.
ghost use Rattle.std.specs.Prelude.{◌≡◌, ◌+◌, ◌≤◌, length};
ghost use Rattle.refusal.specs.Sizes.{file_limit};
ghost use Rattle.table.specs.Told.{ReaderTells, mapped, Passed};
ghost use Rattle.table.specs.Walking.{walk_from};
ghost use Rattle.wasm.specs.Custom.{Names, named_of, NamesHeld, CustomHeld};
ghost use Rattle.wasm.specs.Custom.{label_at, told_by, subsection_at, custom_of, custom_at};
ghost use Rattle.wasm.specs.Answers.{said_got};

use crate::entry::{Got, shift};
use crate::rows::read_symbols;
use leb::Cursor;
use refusal::Part;

// What name sections have told: the module's name, as a range of the file, and how many function names.
#[derive(Clone, Copy)]
pub(crate) struct Named {
    pub label: Option<Part>,
    pub count: usize,
}

// Subsection 0.
#[tactic(auto, using(crate::proofs::Reading::name_inside))]
fn read_label(s: &[u8], base: usize, n: Named) -> Got<Named>
    requires { base + length s.now ≤ file_limit }
    ensures { (t : Names) → n ≡ named_of t → said_got result ≡ mapped named_of (label_at s.now base t) }
{
    let start = Cursor { at: 0 };
    let (name, next) = start.name(s)?;
    Ok((
        Named {
            label: Some(shift(base, name)),
            count: n.count,
        },
        next,
    ))
}

// What a subsection tells, by its id.
fn read_told(id: u8, s: &[u8], base: usize, n: Named, names: &mut [usize]) -> Got<Named>
    requires { base + length s.now ≤ file_limit }
    ensures { (t : Names) → n ≡ named_of t → NamesHeld names.old (length names.old) t
        → ReaderTells named_of (NamesHeld names.new (length names.old))
        (told_by id s.now base (length names.old) t) (said_got result) }
{
    let label = n.label;
    match id {
        0 => read_label(s, base, n),
        1 => {
            let (count, next) = read_symbols(s, base, names, n.count)?;
            Ok((Named { label, count }, next))
        }
        _ => Ok((n, Cursor { at: 0 })),
    }
}

// One subsection: an id, a size, its bytes.
#[tactic(auto, using(crate::proofs::Reading::counted_inside))]
fn read_subsection(s: &[u8], base: usize, c: Cursor, n: Named, names: &mut [usize]) -> Got<Named>
    requires { base + length s.now ≤ file_limit }
    ensures { Passed (length s.now) c.at (said_got result) ×
        ((t : Names) → n ≡ named_of t → NamesHeld names.old (length names.old) t
        → ReaderTells named_of (NamesHeld names.new (length names.old))
        (subsection_at s.now base (length names.old) c.at t) (said_got result)) }
{
    let (id, after_id) = c.u8(s)?;
    let (p, next) = after_id.counted(s)?;
    let from = p.from;
    let end = from + p.len;
    match read_told(id, &s[from..end], base + from, n, names) {
        Ok((m, _)) => Ok((m, next)),
        Err(why) => Err(refusal::moved(from, why)),
    }
}

// The loop alone: subsection after subsection, to the end of the payload.
fn read_subsections(
    s: &[u8],
    base: usize,
    first: Cursor,
    have: Named,
    names: &mut [usize],
) -> Got<Named>
    requires { base + length s.now ≤ file_limit }
    ensures { (t : Names) → have ≡ named_of t → NamesHeld names.old (length names.old) t
        → ReaderTells named_of (NamesHeld names.new (length names.old))
        (walk_from (subsection_at s.now base (length names.old)) s.now first.at t) (said_got result) }
{
    let mut c = first;
    let mut n = have;
    while c.at < s.len() {
        let (told, next) = read_subsection(s, base, c, n, names)?;
        n = told;
        c = next;
    }
    Ok((n, c))
}

// A custom section's own name, and what name sections have told after it.
#[derive(Clone, Copy)]
pub(crate) struct Custom {
    pub name: Part,
    pub inner: Named,
}

#[tactic(auto, using(crate::proofs::Reading::name_inside))]
pub(crate) fn read_custom(s: &[u8], base: usize, n: Named, names: &mut [usize]) -> Got<Custom>
    requires { base + length s.now ≤ file_limit }
    ensures { (t : Names) → n ≡ named_of t → NamesHeld names.old (length names.old) t
        → ReaderTells custom_of (CustomHeld names.new (length names.old))
        (custom_at s.now base (length names.old) t) (said_got result) }
{
    let start = Cursor { at: 0 };
    let (p, after_name) = start.name(s)?;
    let name = shift(base, p);
    let from = p.from;
    let end = from + p.len;
    if !text::order::equal(&s[from..end], b"name") {
        return Ok((Custom { name, inner: n }, after_name));
    }
    let (inner, next) = read_subsections(s, base, after_name, n, names)?;
    Ok((Custom { name, inner }, next))
}

// What the lines of a manifest come to, and the rows of the lent tables 5 and 6.
ghost use Rattle.std.specs.Prelude.{◌≡◌, List, ℕ, ◌+◌, ◌<◌, length};
ghost use Rattle.table.specs.Table.{put_row};
ghost use Rattle.table.specs.Told.{Ends};
ghost use Rattle.wit.specs.Manifest.{manifest_sizes, sized, lend_manifest, start, known_of, next_line, said_known, Steps, Numbered};
ghost use Rattle.wit.specs.Manifest.{world_cells, reference_cells, close_at, open_at, refer_at, obey_at, packaged, opened};

use crate::line::Directive;
use refusal::{Part, Refusal};
use table::shape::{MAX_REFERENCES, MAX_WORLDS, REFERENCE_WIDTH, WORLD_WIDTH};

// A row of table 6: the world by its row of table 5, whether it is an export, its path and the signature that it may have.
#[derive(Clone, Copy)]
pub(crate) struct Reference {
    pub world: usize,
    pub export: bool,
    pub path: Part,
    pub signature: Option<Part>,
}

// What is known after some lines: the number of the last, the package, the open world's name, how many rows tables 5 and 6 have.
#[derive(Clone, Copy)]
pub(crate) struct Known {
    pub line: usize,
    pub pack: Option<Part>,
    pub world: Option<Part>,
    pub worlds: usize,
    pub references: usize,
}

// With the place where the next line begins.
pub(crate) type KnownRead = Result<(Known, usize), Refusal>;

pub(crate) fn first_known() -> Known
    ensures { result ≡ known_of start }
{
    Known {
        line: 0,
        pack: None,
        world: None,
        worlds: 0,
        references: 0,
    }
}

impl Known {
    pub(crate) fn on_line(self) -> Known
        requires { self.line < 18446744073709551615 }
        ensures { result ≡ next_line self }
    {
        Known {
            line: self.line + 1,
            ..self
        }
    }
}

fn put_world(table: &mut [usize], count: usize, name: Part)
    ensures { table.new ≡ put_row table.old count (world_cells name) }
{
    table::put_row(table, count, &[name.from, name.len]);
}

// Zeros for a signature that is absent.
fn put_reference(table: &mut [usize], count: usize, row: Reference)
    ensures { table.new ≡ put_row table.old count (reference_cells row) }
{
    let signature = row.signature.unwrap_or(Part { from: 0, len: 0 });
    let cells = [
        row.world,
        usize::from(row.export),
        row.path.from,
        row.path.len,
        usize::from(row.signature.is_some()),
        signature.from,
        signature.len,
    ];
    table::put_row(table, count, &cells);
}

// A world's row is taken when it closes.
pub(crate) fn close_world(k: Known, next: usize, worlds: &mut [usize]) -> KnownRead
    ensures { Ends next (said_known result) × Numbered k.line (said_known result)
        × ((l : List ℕ) (n : ℕ) → Steps (sized (length worlds.old) n) (lend_manifest worlds.old l)
        (lend_manifest worlds.new l) k (close_at (sized (length worlds.old) n) next) (said_known result)) }
{
    let Some(name) = k.world else {
        return Ok((k, next));
    };
    let room = table::capacity(worlds.len(), WORLD_WIDTH, MAX_WORLDS);
    let n = k.worlds;
    if n >= room {
        return Err(Refusal::Full(5));
    }
    put_world(worlds, n, name);
    let closed = Known {
        world: None,
        worlds: n + 1,
        ..k
    };
    Ok((closed, next))
}

// A reference's row points to the world that is open, which takes its own row later.
fn add_reference(
    k: Known,
    export: bool,
    path: Part,
    signature: Option<Part>,
    next: usize,
    references: &mut [usize],
) -> KnownRead
    ensures { Ends next (said_known result) × Numbered k.line (said_known result)
        × ((l : List ℕ) (n : ℕ) → Steps (sized n (length references.old)) (lend_manifest l references.old)
        (lend_manifest l references.new) k
        (refer_at (sized n (length references.old)) export path signature next) (said_known result)) }
{
    let room = table::capacity(references.len(), REFERENCE_WIDTH, MAX_REFERENCES);
    let n = k.references;
    if n >= room {
        return Err(Refusal::Full(6));
    }
    let row = Reference {
        world: k.worlds,
        export,
        path,
        signature,
    };
    put_reference(references, n, row);
    let referred = Known {
        references: n + 1,
        ..k
    };
    Ok((referred, next))
}

fn with_package(k: Known, p: Part) -> Known
    ensures { result ≡ packaged p k }
{
    Known { pack: Some(p), ..k }
}

fn with_world(k: Known, p: Part) -> Known
    ensures { result ≡ opened p k }
{
    Known {
        world: Some(p),
        ..k
    }
}

// The world before it closes, and one with a name opens.
fn open_world(k: Known, name: Part, next: usize, worlds: &mut [usize]) -> KnownRead
    ensures { Ends next (said_known result) × Numbered k.line (said_known result)
        × ((l : List ℕ) (n : ℕ) → Steps (sized (length worlds.old) n) (lend_manifest worlds.old l)
        (lend_manifest worlds.new l) k (open_at (sized (length worlds.old) n) name next) (said_known result)) }
{
    let (n, at) = close_world(k, next, worlds)?;
    if name.len == 0 {
        return Err(Refusal::NoName(n.line));
    }
    Ok((with_world(n, name), at))
}

// What a line does, in a world and outside.
pub(crate) fn obey(
    d: Directive,
    k: Known,
    next: usize,
    worlds: &mut [usize],
    references: &mut [usize],
) -> KnownRead
    ensures { Ends next (said_known result) × Numbered k.line (said_known result)
        × Steps (manifest_sizes worlds.old references.old)
        (lend_manifest worlds.old references.old) (lend_manifest worlds.new references.new)
        k (obey_at (manifest_sizes worlds.old references.old) d next) (said_known result) }
{
    let inside = k.world.is_some();
    let line = k.line;
    match d {
        Directive::Blank => Ok((k, next)),
        Directive::Package(p) => {
            if inside {
                return Err(Refusal::PackageInWorld(line));
            }
            Ok((with_package(k, p), next))
        }
        Directive::World(p) => open_world(k, p, next, worlds),
        Directive::Close => {
            if inside {
                return close_world(k, next, worlds);
            }
            Err(Refusal::Unmatched(line))
        }
        Directive::Refer(export, path, signature) => {
            if inside {
                return add_reference(k, export, path, signature, next, references);
            }
            Err(Refusal::Outside(line))
        }
        Directive::Brace => {
            if inside {
                return Ok((k, next));
            }
            Err(Refusal::Directive(line))
        }
        Directive::Other => Err(Refusal::Directive(line)),
    }
}

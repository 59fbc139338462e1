// wit.rs: the manifest reader over lent tables.
#![tactic(auto)]

mod line;
mod rows;

ghost use Rattle.std.specs.Prelude.{◌≡◌, ◌+◌, ◌≤◌, ◌<◌, length};
ghost use Rattle.table.specs.Told.{ReaderTells, Passed};
ghost use Rattle.wit.specs.Manifest.{manifest_sizes, lend_manifest, ManifestHolds, start, known_of, line_at, lines_at, manifest_at};
ghost use Rattle.wit.specs.Manifest.{manifest_known, said_manifest};
ghost use Rattle.wit.specs.Manifest.{ManifestIs, said_known, Steps, Numbered};

use crate::rows::{Known, KnownRead, close_world, first_known, obey};
use refusal::{Part, Refusal};

// A manifest that was read: the package as a range of the text, where it has one, and how many rows tables 5 and 6 have.
#[derive(Clone, Copy)]
pub struct Manifest {
    pub package: Option<Part>,
    pub worlds: usize,
    pub references: usize,
}

fn clear_both(worlds: &mut [usize], references: &mut [usize])
    ensures { ManifestHolds (lend_manifest worlds.new references.new)
        (manifest_sizes worlds.old references.old) start }
{
    table::clear(worlds);
    table::clear(references);
}

// One line: its comment cut, trimmed, obeyed.
fn read_line(
    s: &[u8],
    at: usize,
    k: Known,
    worlds: &mut [usize],
    references: &mut [usize],
) -> KnownRead
    requires at_in_bounds { at < length s.now }
    requires line_le_at { k.line ≤ at }
    ensures { Passed (length s.now) at (said_known result) × Numbered (k.line + 1) (said_known result)
        × Steps (manifest_sizes worlds.old references.old)
        (lend_manifest worlds.old references.old) (lend_manifest worlds.new references.new)
        k (line_at s.now (manifest_sizes worlds.old references.old) at) (said_known result) }
{
    let l = text::lines::line_at(s, at);
    let end = l.end;
    let next = l.next;
    let d = line::directive_at(s, at, end);
    obey(d, k.on_line(), next, worlds, references)
}

// The loop alone: line after line, to the end of the text, which closes an open world.
fn read_lines(s: &[u8], worlds: &mut [usize], references: &mut [usize]) -> KnownRead
    requires { ManifestHolds (lend_manifest worlds.old references.old) (manifest_sizes worlds.old references.old) start }
    ensures { ReaderTells known_of (ManifestHolds (lend_manifest worlds.new references.new)
        (manifest_sizes worlds.old references.old))
        (lines_at s.now (manifest_sizes worlds.old references.old)) (said_known result) }
{
    let mut at = 0;
    let mut k = first_known();
    while at < s.len() {
        let (n, next) = read_line(s, at, k, worlds, references)?;
        k = n;
        at = next;
    }
    close_world(k, at, worlds)
}

fn manifest_of(k: Known) -> Manifest
    ensures { result ≡ manifest_known k }
{
    Manifest {
        package: k.pack,
        worlds: k.worlds,
        references: k.references,
    }
}

// Any text, any tables: the answer, and every cell of both tables.
pub fn read_manifest(
    s: &[u8],
    worlds: &mut [usize],
    references: &mut [usize],
) -> Result<Manifest, Refusal>
    ensures { ManifestIs (manifest_sizes worlds.old references.old)
        (manifest_at s.now (manifest_sizes worlds.old references.old))
        (lend_manifest worlds.new references.new) (said_manifest result) }
{
    clear_both(worlds, references);
    text::pieces::test_text(s)?;
    match read_lines(s, worlds, references) {
        Ok((k, _)) => Ok(manifest_of(k)),
        Err(why) => {
            clear_both(worlds, references);
            Err(why)
        }
    }
}

// wit.rs: a manifest's text, as the rows of tables 5 and 6 and the two sorted lists of paths.
ghost use Rattle.std.specs.Prelude.{◌≡◌, length};
ghost use Rattle.refusal.specs.Said.{number_of, where_of, said_by};
ghost use Rattle.output.specs.Bytes.{room_for};
ghost use Rattle.listed.specs.Delivered.{Lays, Delivers};
ghost use Rattle.listed.specs.Manifests.{no_manifest, manifest_by, manifest_bytes, manifest_told, worlds_in, references_in};
ghost use Rattle.listed.specs.Manifests.{ManifestCounted, Short, laid_bytes, paths_listed, manifest_listed};

use crate::lists::lay_four;
use reference_rows::{GivenManifest, all_exports, all_imports};
use refusal::{Part, Refusal};
use table::given::GivenTable;
use table::shape::{MAX_SORTED, REFERENCE_CELLS, REFERENCE_WIDTH, WORLD_CELLS, WORLD_WIDTH};
use wit::Manifest;

// The package, how many rows the tables have, how long the lists of imported and exported paths are, and how many bytes these are.
#[repr(C)]
#[derive(Clone, Copy)]
pub struct ManifestTold {
    pub number: u32,
    pub place: usize,
    pub packaged: bool,
    pub start: usize,
    pub size: usize,
    pub worlds: usize,
    pub references: usize,
    pub imported: usize,
    pub exported: usize,
    pub bytes: usize,
}

fn no_manifest(why: Refusal) -> ManifestTold
    ensures { result ≡ no_manifest (number_of why) (where_of why) }
{
    ManifestTold {
        number: refusal::number(why),
        place: refusal::place(why),
        packaged: false,
        start: 0,
        size: 0,
        worlds: 0,
        references: 0,
        imported: 0,
        exported: 0,
        bytes: 0,
    }
}

fn manifest_of(
    m: Manifest,
    imported: usize,
    exported: usize,
    w: Result<usize, Refusal>,
) -> ManifestTold
    ensures { result ≡ manifest_by m imported exported (said_by w) }
{
    let package = m.package.unwrap_or(Part { from: 0, len: 0 });
    match w {
        Ok(bytes) => ManifestTold {
            number: 0,
            place: 0,
            packaged: m.package.is_some(),
            start: package.from,
            size: package.len,
            worlds: m.worlds,
            references: m.references,
            imported,
            exported,
            bytes,
        },
        Err(why) => no_manifest(why),
    }
}

// The rows that were read, one table after another, then the two lists. The counts of both tables stand in `m`.
fn lay_manifest(
    m: Manifest,
    worlds: &[usize],
    references: &[usize],
    imported: &[usize],
    exported: &[usize],
    out: &mut [u8],
) -> ManifestTold
    requires manifest_counted { ManifestCounted m worlds.now references.now }
    requires short { Short imported.now exported.now }
    ensures { Lays (manifest_by m (length imported.now) (length exported.now))
        (room_for (laid_bytes (worlds_in m worlds.now) (references_in m references.now)
        imported.now exported.now) (length out.old)) out.old result out.new }
{
    let a = m.worlds * WORLD_WIDTH;
    let b = m.references * REFERENCE_WIDTH;
    let w = lay_four(&worlds[..a], &references[..b], imported, exported, out);
    manifest_of(m, imported.len(), exported.len(), w)
}

// The paths that the rows import and export.
fn list_paths(
    text: &[u8],
    m: Manifest,
    worlds: &[usize],
    references: &[usize],
    out: &mut [u8],
) -> ManifestTold
    requires { ManifestCounted m worlds.now references.now }
    ensures { Delivers manifest_bytes manifest_told
        (paths_listed text.now m worlds.now references.now
        (worlds_in m worlds.now) (references_in m references.now))
        out.old result out.new }
{
    let mut imported = [0usize; MAX_SORTED];
    let mut exported = [0usize; MAX_SORTED];
    let given = GivenManifest {
        text,
        worlds: GivenTable {
            cells: worlds,
            count: m.worlds,
        },
        references: GivenTable {
            cells: references,
            count: m.references,
        },
    };
    match all_imports(given, &mut imported) {
        Err(why) => no_manifest(why),
        Ok(i) => match all_exports(given, &mut exported) {
            Err(why) => no_manifest(why),
            Ok(e) => lay_manifest(m, worlds, references, &imported[..i], &exported[..e], out),
        },
    }
}

// The text is read with tables at the limits: what the reader refuses, then 16.
pub fn list_manifest(text: &[u8], out: &mut [u8]) -> ManifestTold
    ensures { Delivers manifest_bytes manifest_told (manifest_listed text.now) out.old result out.new }
{
    let mut worlds = [0usize; WORLD_CELLS];
    let mut references = [0usize; REFERENCE_CELLS];
    match wit::read_manifest(text, &mut worlds, &mut references) {
        Err(why) => no_manifest(why),
        Ok(m) => list_paths(text, m, &worlds, &references, out),
    }
}

// wit.rs with lent tables.
ghost use Rattle.std.specs.Prelude.{◌≡◌, length, true, false};
ghost use Rattle.wit.specs.Manifest.{manifest_sizes, lend_manifest, said_manifest, manifest_at};
ghost use Rattle.reference_rows.specs.Queries.{paths_of};
ghost use Rattle.judged.specs.Manifests.{manifest_answer, ManifestTells};
ghost use Rattle.requirements.specs.Requirements.{room_of};
ghost use Rattle.requirements.specs.Interfaces.{reference_domain, manifest_rows};
ghost use Rattle.judged.specs.Rows.{ListTells, RequireTells};

use crate::rows::{CountTold, count_of, part_of};
use reference_rows::GivenManifest;
use refusal::Refusal;
use table::given::GivenTable;
use wit::Manifest;

#[repr(C)]
#[derive(Clone, Copy)]
pub struct ManifestTold {
    pub number: u32,
    pub place: usize,
    pub packaged: bool,
    pub start: usize,
    pub size: usize,
    pub worlds: usize,
    pub references: usize,
}

fn manifest_of(r: Result<Manifest, Refusal>) -> ManifestTold
    ensures { result ≡ manifest_answer (said_manifest r) }
{
    match r {
        Ok(m) => ManifestTold {
            number: 0,
            place: 0,
            packaged: m.package.is_some(),
            start: part_of(m.package).from,
            size: part_of(m.package).len,
            worlds: m.worlds,
            references: m.references,
        },
        Err(why) => ManifestTold {
            number: refusal::number(why),
            place: refusal::place(why),
            packaged: false,
            start: 0,
            size: 0,
            worlds: 0,
            references: 0,
        },
    }
}

pub fn judged_manifest(text: &[u8], worlds: &mut [usize], references: &mut [usize]) -> ManifestTold
    ensures { ManifestTells (manifest_sizes worlds.old references.old)
        (manifest_at text.now (manifest_sizes worlds.old references.old))
        (lend_manifest worlds.new references.new) result }
{
    manifest_of(wit::read_manifest(text, worlds, references))
}

// A manifest as C hands it in, with the counts of tables 5 and 6.
fn given_of<'a>(
    text: &'a [u8],
    worlds: &'a [usize],
    n5: usize,
    references: &'a [usize],
    n6: usize,
) -> GivenManifest<'a>
    ensures { (result.text.now ≡ text.now)
        × (result.worlds.cells.now ≡ worlds.now) × (result.worlds.count ≡ n5)
        × (result.references.cells.now ≡ references.now) × (result.references.count ≡ n6) }
{
    GivenManifest {
        text,
        worlds: GivenTable {
            cells: worlds,
            count: n5,
        },
        references: GivenTable {
            cells: references,
            count: n6,
        },
    }
}

// Table 15: of each path that is imported the lowest row, by bytes.
pub fn judged_imports(
    text: &[u8],
    worlds: &[usize],
    references: &[usize],
    sorted: &mut [usize],
    n5: usize,
    n6: usize,
) -> CountTold
    ensures { ListTells (paths_of false text.now worlds.now n5 references.now n6
        (length sorted.old)) sorted.old sorted.new result }
{
    let given = given_of(text, worlds, n5, references, n6);
    count_of(reference_rows::all_imports(given, sorted))
}

// And of each that is exported.
pub fn judged_exports(
    text: &[u8],
    worlds: &[usize],
    references: &[usize],
    sorted: &mut [usize],
    n5: usize,
    n6: usize,
) -> CountTold
    ensures { ListTells (paths_of true text.now worlds.now n5 references.now n6
        (length sorted.old)) sorted.old sorted.new result }
{
    let given = given_of(text, worlds, n5, references, n6);
    count_of(reference_rows::all_exports(given, sorted))
}

// Table 7: of each path that is imported the domain and the lowest row, by bytes.
pub fn judged_needs(
    text: &[u8],
    worlds: &[usize],
    references: &[usize],
    domains: &mut [usize],
    rows: &mut [usize],
    n5: usize,
    n6: usize,
) -> CountTold
    ensures { RequireTells (reference_domain text.now references.now)
        (manifest_rows text.now worlds.now n5 references.now n6
        (room_of (length domains.old) (length rows.old)))
        domains.old domains.new rows.old rows.new result }
{
    let given = given_of(text, worlds, n5, references, n6);
    count_of(requirements::manifest::requirements_from_manifest(given, domains, rows))
}

// wit.rs: what the rows of tables 5 and 6 answer: which paths a manifest imports and exports.
#![tactic(auto)]

ghost use Rattle.std.specs.Prelude.{◌≡◌, true, false, length, ◌+◌, ◌<◌};
ghost use Rattle.refusal.specs.Said.{said_by};
ghost use Rattle.table.specs.Listing.{ListsRows};
ghost use Rattle.sorting.specs.Keys.{Sorts};
ghost use Rattle.reference_rows.specs.Queries.{range_fits, worlds_tested, reference_fits, references_tested, manifest_tested};
ghost use Rattle.reference_rows.specs.Queries.{path_rows, paths_of};

use refusal::Refusal;
use table::given::GivenTable;
use table::shape::{
    MAX_REFERENCES, MAX_WORLDS, REFERENCE_PATH, REFERENCE_SIGNATURE, REFERENCE_WIDTH,
    REFERENCE_WORLD, WORLD_NAME, WORLD_WIDTH,
};

// The range at a column of row i and the next one lies in so many bytes.
fn range_fits(length: usize, rows: &[usize], width: usize, i: usize, column: usize) -> bool
    requires { column < 6 }
    ensures { result ≡ range_fits length rows.now width i column (column + 1) }
{
    let from = table::cell(rows, width, i, column);
    let len = table::cell(rows, width, i, column + 1);
    refusal::fits(length, from, len)
}

// Table 5, handed in with a text of so many bytes: each name's range.
fn check_worlds(length: usize, worlds: GivenTable) -> Result<(), Refusal>
    ensures { said_by result ≡ worlds_tested length worlds.entry.cells.now worlds.entry.count }
{
    worlds.check_count(WORLD_WIDTH, MAX_WORLDS)?;
    table::refuse_row((0..worlds.count).position(|i| {
        !range_fits(length, worlds.cells, WORLD_WIDTH, i, WORLD_NAME)
    }))
}

// Row i points to one of the worlds, and its path and its signature lie in the text.
#[tactic(auto, unfolding(crate::specs::Queries::reference_fits))]
fn reference_fits(length: usize, worlds: usize, references: &[usize], i: usize) -> bool
    ensures { result ≡ reference_fits length worlds references.now i }
{
    table::cell(references, REFERENCE_WIDTH, i, REFERENCE_WORLD) < worlds
        && range_fits(length, references, REFERENCE_WIDTH, i, REFERENCE_PATH)
        && range_fits(length, references, REFERENCE_WIDTH, i, REFERENCE_SIGNATURE)
}

// Table 6, handed in with a text of so many bytes and so many worlds.
fn check_references(length: usize, worlds: usize, references: GivenTable) -> Result<(), Refusal>
    ensures { said_by result ≡ references_tested length worlds references.entry.cells.now references.entry.count }
{
    references.check_count(REFERENCE_WIDTH, MAX_REFERENCES)?;
    table::refuse_row((0..references.count).position(|i| {
        !reference_fits(length, worlds, references.cells, i)
    }))
}

// A manifest that is handed in: its text, and tables 5 and 6.
#[derive(Clone, Copy)]
pub struct GivenManifest<'a> {
    pub text: &'a [u8],
    pub worlds: GivenTable<'a>,
    pub references: GivenTable<'a>,
}

// 14; 4; 15 for table 5, then for table 6.
pub fn check_manifest(manifest: GivenManifest) -> Result<(), Refusal>
    ensures { let m = manifest.entry in
        said_by result ≡ manifest_tested m.text.now m.worlds.cells.now m.worlds.count m.references.cells.now m.references.count }
{
    let length = manifest.text.len();
    text::pieces::test_text(manifest.text)?;
    check_worlds(length, manifest.worlds)?;
    check_references(length, manifest.worlds.count, manifest.references)
}

// The imports, whose direction is 0, or the exports, of each path the lowest row, by bytes.
fn sort_paths(s: &[u8], references: GivenTable, export: bool, sorted: &mut [usize]) -> Option<usize>
    ensures { Sorts (path_rows export s.now references.entry.cells.now references.entry.count)
        sorted.old sorted.new result }
{
    let keys = sorting::by_name(REFERENCE_WIDTH, 2, 3, 1, 0);
    let paths = sorting::Rows {
        first: s,
        second: s,
        cells: references.cells,
        keys,
    };
    if export {
        return paths.sort_others(references.count, sorted);
    }
    paths.sort(references.count, sorted)
}

fn list_paths(manifest: GivenManifest, export: bool, sorted: &mut [usize]) -> Result<usize, Refusal>
    ensures { let m = manifest.entry in
        ListsRows (paths_of export m.text.now m.worlds.cells.now m.worlds.count m.references.cells.now m.references.count
        (length sorted.old)) sorted.old sorted.new (said_by result) }
{
    if let Err(why) = check_manifest(manifest) {
        table::clear(sorted);
        return Err(why);
    }
    sort_paths(manifest.text, manifest.references, export, sorted).ok_or(Refusal::Full(15))
}

// Table 15: of each path that is imported, in whatever world, the lowest row, by bytes.
pub fn all_imports(manifest: GivenManifest, sorted: &mut [usize]) -> Result<usize, Refusal>
    ensures { let m = manifest.entry in
        ListsRows (paths_of false m.text.now m.worlds.cells.now m.worlds.count m.references.cells.now m.references.count
        (length sorted.old)) sorted.old sorted.new (said_by result) }
{
    list_paths(manifest, false, sorted)
}

// And of each that is exported.
pub fn all_exports(manifest: GivenManifest, sorted: &mut [usize]) -> Result<usize, Refusal>
    ensures { let m = manifest.entry in
        ListsRows (paths_of true m.text.now m.worlds.cells.now m.worlds.count m.references.cells.now m.references.count
        (length sorted.old)) sorted.old sorted.new (said_by result) }
{
    list_paths(manifest, true, sorted)
}

// The domains that a manifest asks for: table 7, lent as two columns.
ghost use Rattle.std.specs.Prelude.{◌≡◌, length};
ghost use Rattle.refusal.specs.Said.{said_by};
ghost use Rattle.table.specs.Table.{rows_of};
ghost use Rattle.requirements.specs.Requirements.{room_of, Requires};
ghost use Rattle.requirements.specs.Filling.{Column};
ghost use Rattle.requirements.specs.Interfaces.{reference_domain, domain_of_cell, manifest_rows};

use crate::module::refuse;
use domains::classify::classify_path;
use domains::domain_number;
use reference_rows::GivenManifest;
use refusal::Refusal;
use table::shape::{MAX_REQUIREMENTS, REFERENCE_PATH, REFERENCE_WIDTH, REQUIREMENT_WIDTH};

// The domain of the path that row i imports.
fn domain_at(s: &[u8], references: &[usize], i: usize) -> usize
    ensures { result ≡ reference_domain s.now references.now i }
{
    let path = table::name(s, references, REFERENCE_WIDTH, i, REFERENCE_PATH);
    domain_number(classify_path(path))
}

// Of the first k of the rows the domains, as far as the column takes them.
fn list_domains(s: &[u8], references: &[usize], rows: &[usize], k: usize, domains: &mut [usize])
    ensures { Column (length domains.old)
        (rows_of (domain_of_cell s.now references.now rows.now) k) domains.new }
{
    table::clear(domains);
    for i in 0..k {
        let domain = domain_at(s, references, table::cell(rows, REQUIREMENT_WIDTH, i, 0));
        table::put_row(domains, i, &[domain]);
    }
}

// Table 7: of each path that is imported the domain and the lowest row, by bytes.
pub fn requirements_from_manifest(
    manifest: GivenManifest,
    domains: &mut [usize],
    rows: &mut [usize],
) -> Result<usize, Refusal>
    ensures { let m = manifest.entry in
        Requires (reference_domain m.text.now m.references.cells.now)
        (manifest_rows m.text.now m.worlds.cells.now m.worlds.count m.references.cells.now m.references.count
        (room_of (length domains.old) (length rows.old)))
        domains.old domains.new rows.old rows.new (said_by result) }
{
    if let Err(why) = reference_rows::check_manifest(manifest) {
        return refuse(why, domains, rows);
    }
    let most = table::capacity(domains.len(), REQUIREMENT_WIDTH, MAX_REQUIREMENTS);
    let room = table::capacity(rows.len(), REQUIREMENT_WIDTH, most);
    let text = manifest.text;
    let references = manifest.references;
    let keys = sorting::by_name(REFERENCE_WIDTH, 2, 3, 1, 0);
    let paths = sorting::Rows {
        first: text,
        second: text,
        cells: references.cells,
        keys,
    };
    let Some(k) = paths.sort(references.count, rows) else {
        return refuse(Refusal::Full(7), domains, rows);
    };
    if room < k {
        return refuse(Refusal::Full(7), domains, rows);
    }
    list_domains(text, references.cells, rows, k, domains);
    Ok(k)
}

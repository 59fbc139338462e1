// compat.rs with lent tables.
ghost use Rattle.std.specs.Prelude.{◌≡◌, length};
ghost use Rattle.table.specs.Shape.{capacity_in};
ghost use Rattle.differences.specs.Compared.{given, compared};
ghost use Rattle.compat.specs.Answer.{said_compared};
ghost use Rattle.differences.specs.Part.{diff_bytes};
ghost use Rattle.reasons.specs.Reasons.{diffs, reasoned};
ghost use Rattle.told.specs.Policies.{WriteTells};
ghost use Rattle.judged.specs.Compares.{compare_told, CompareTells, change_at, name_told, given_as, diffs_as};

use compat::Lists;
use differences::parts::{capability_diff_source, export_diff_name};
use differences::{Change, GivenModule};
use reasons::{GivenDiffs, breaking_reasons};
use refusal::Refusal;
use table::given::GivenTable;
use told::policies::{WrittenTold, written_of};

#[repr(C)]
#[derive(Clone, Copy)]
pub struct CompareTold {
    pub number: u32,
    pub place: usize,
    pub exports: usize,
    pub capabilities: usize,
    pub compatible: bool,
}

// How long a name is, and one of its bytes.
#[repr(C)]
#[derive(Clone, Copy)]
pub struct NameTold {
    pub len: usize,
    pub byte: u8,
}

fn compare_of(r: Result<Lists, Refusal>) -> CompareTold
    ensures { result ≡ compare_told (said_compared r) }
{
    match r {
        Ok(lists) => CompareTold {
            number: 0,
            place: 0,
            exports: lists.exports,
            capabilities: lists.capabilities,
            compatible: lists.compatible,
        },
        Err(why) => CompareTold {
            number: refusal::number(why),
            place: refusal::place(why),
            exports: 0,
            capabilities: 0,
            compatible: false,
        },
    }
}

pub(crate) fn change_of(mark: usize) -> Change
    ensures { result ≡ change_at mark }
{
    match mark {
        0 => Change::Removed,
        _ => Change::Added,
    }
}

pub(crate) fn name_of(name: &[u8], k: usize) -> NameTold
    ensures { result ≡ name_told name.now k }
{
    NameTold {
        len: name.len(),
        byte: if k < name.len() { name[k] } else { 0 },
    }
}

// What C hands in of a module, by parameters.
fn given_module<'a, 'b>(
    file: &'a [u8],
    imports: &'b [usize],
    m: usize,
    exports: &'b [usize],
    n: usize,
) -> GivenModule<'a, 'b>
    ensures { result ≡ given_as file.entry imports.entry m exports.entry n }
{
    GivenModule {
        file,
        imports: GivenTable {
            cells: imports,
            count: m,
        },
        exports: GivenTable {
            cells: exports,
            count: n,
        },
    }
}

// And of two lists of differences.
fn given_diffs<'a>(xd: &'a [usize], n: usize, cd: &'a [usize], m: usize) -> GivenDiffs<'a>
    ensures { result ≡ diffs_as xd.entry n cd.entry m }
{
    GivenDiffs {
        exports: GivenTable {
            cells: xd,
            count: n,
        },
        needs: GivenTable {
            cells: cd,
            count: m,
        },
    }
}

// Tables 8 and 9: what was removed from the baseline and added in the candidate.
pub fn judged_compare<'a, 'b, 'c, 'd, 'e, 'f, 'g>(
    baseline: &'a [u8],
    bi: &'b [usize],
    be: &'c [usize],
    candidate: &'a [u8],
    ci: &'d [usize],
    ce: &'e [usize],
    xd: &'f mut [usize],
    cd: &'g mut [usize],
    nbi: usize,
    nbe: usize,
    nci: usize,
    nce: usize,
) -> CompareTold
    ensures { CompareTells (compared (given baseline.now bi.now nbi be.now nbe)
        (given candidate.now ci.now nci ce.now nce)
        (capacity_in 8 (length xd.old)) (capacity_in 9 (length cd.old)))
        xd.old xd.new cd.old cd.new result }
{
    let baseline = given_module(baseline, bi, nbi, be, nbe);
    let candidate = given_module(candidate, ci, nci, ce, nce);
    compare_of(compat::compare_modules(baseline, candidate, xd, cd))
}

// Of the name of an export that was removed (0) or added, byte k.
pub fn judged_export_name<'a, 'b, 'c>(
    baseline: &'a [u8],
    be: &'b [usize],
    candidate: &'a [u8],
    ce: &'c [usize],
    nbe: usize,
    nce: usize,
    change: usize,
    row: usize,
    k: usize,
) -> NameTold
    ensures { result ≡ name_told (diff_bytes baseline.now be.now nbe
        candidate.now ce.now nce 3 (change_at change) row) k }
{
    let baseline = given_module(baseline, &[], 0, be, nbe);
    let candidate = given_module(candidate, &[], 0, ce, nce);
    let name = export_diff_name(baseline, candidate, change_of(change), row);
    name_of(name, k)
}

// And of the module name of a pair.
pub fn judged_source_name<'a, 'b, 'c>(
    baseline: &'a [u8],
    bi: &'b [usize],
    candidate: &'a [u8],
    ci: &'c [usize],
    nbi: usize,
    nci: usize,
    change: usize,
    row: usize,
    k: usize,
) -> NameTold
    ensures { result ≡ name_told (diff_bytes baseline.now bi.now nbi
        candidate.now ci.now nci 2 (change_at change) row) k }
{
    let baseline = given_module(baseline, bi, nbi, &[], 0);
    let candidate = given_module(candidate, ci, nci, &[], 0);
    let name = capability_diff_source(baseline, candidate, change_of(change), row);
    name_of(name, k)
}

// Why the candidate cannot stand in for the baseline, in words.
pub fn judged_reasons(
    baseline: &[u8],
    bi: &[usize],
    be: &[usize],
    candidate: &[u8],
    ci: &[usize],
    ce: &[usize],
    xd: &[usize],
    cd: &[usize],
    out: &mut [u8],
    nbi: usize,
    nbe: usize,
    nci: usize,
    nce: usize,
    nxd: usize,
    ncd: usize,
) -> WrittenTold
    ensures { WriteTells (reasoned (given baseline.now bi.now nbi be.now nbe)
        (given candidate.now ci.now nci ce.now nce)
        (diffs xd.now nxd cd.now ncd) (length out.old)) out.old result out.new }
{
    let baseline = given_module(baseline, bi, nbi, be, nbe);
    let candidate = given_module(candidate, ci, nci, ce, nce);
    let lists = given_diffs(xd, nxd, cd, ncd);
    written_of(breaking_reasons(baseline, candidate, lists, out))
}

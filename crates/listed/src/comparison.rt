// compat.rs: two builds, as the rows of tables 8 and 9 and the reasons why one cannot stand in for the other.
ghost use Rattle.std.specs.Prelude.{◌≡◌, length};
ghost use Rattle.refusal.specs.Said.{number_of, where_of};
ghost use Rattle.wasm.specs.Module.{said_module};
ghost use Rattle.differences.specs.Compared.{given_of};
ghost use Rattle.reasons.specs.Reasons.{diffs_of};
ghost use Rattle.listed.specs.Delivered.{Delivers};
ghost use Rattle.listed.specs.Comparisons.{no_comparison, comparison_bytes, comparison_told, ComparisonCounted, Explains};
ghost use Rattle.listed.specs.Comparisons.{explained, against};
ghost use Rattle.listed.specs.Comparisons.{builds, comparison, RowsRead};

use crate::lists::lay_four;
use compat::compare_modules;
use differences::GivenModule;
use reasons::{GivenDiffs, reasons_from};
use refusal::{MAX_FILE, Refusal};
use table::given::GivenTable;
use table::shape::{
    EXPORT_CELLS, EXPORT_DIFF_CELLS, EXPORT_DIFF_WIDTH, IMPORT_CELLS, NAME_CELLS, NEED_DIFF_CELLS,
    NEED_DIFF_WIDTH, SECTION_CELLS,
};
use wasm::{LentTables, Module};

// The offset beside 5, how long the lists of differences are, whether nothing is broken, how many bytes the reasons are, and how many were
// written in all.
#[repr(C)]
#[derive(Clone, Copy)]
pub struct ComparisonTold {
    pub number: u32,
    pub place: usize,
    pub offset: usize,
    pub exports: usize,
    pub capabilities: usize,
    pub compatible: bool,
    pub reasons: usize,
    pub bytes: usize,
}

fn no_comparison(why: Refusal) -> ComparisonTold
    ensures { result ≡ no_comparison (number_of why) (where_of why) }
{
    ComparisonTold {
        number: refusal::number(why),
        place: refusal::place(why),
        offset: refusal::beside(why),
        exports: 0,
        capabilities: 0,
        compatible: false,
        reasons: 0,
        bytes: 0,
    }
}

// The rows of the differences, one table after another, then the reasons: these first, as they can refuse.
fn lay_comparison(
    baseline: GivenModule,
    candidate: GivenModule,
    diffs: GivenDiffs,
    compatible: bool,
    out: &mut [u8],
) -> ComparisonTold
    requires { ComparisonCounted diffs.exports.count diffs.needs.count diffs.exports.cells.now diffs.needs.cells.now }
    ensures { Explains (given_of baseline.entry) (given_of candidate.entry)
        (diffs_of diffs.entry) compatible out.old result out.new }
{
    let a = diffs.exports.count * EXPORT_DIFF_WIDTH;
    let b = diffs.needs.count * NEED_DIFF_WIDTH;
    let first = (a + b) * 8;
    match reasons_from(baseline, candidate, diffs, out, first as u32) {
        Err(why) => no_comparison(why),
        Ok(bytes) => {
            let _ = lay_four(
                &diffs.exports.cells[..a],
                &diffs.needs.cells[..b],
                &[],
                &[],
                out,
            );
            ComparisonTold {
                number: 0,
                place: 0,
                offset: 0,
                exports: diffs.exports.count,
                capabilities: diffs.needs.count,
                compatible,
                reasons: bytes - first,
                bytes,
            }
        }
    }
}

// The differences of two modules that were read, in tables at the limits.
fn list_differences(baseline: GivenModule, candidate: GivenModule, out: &mut [u8]) -> ComparisonTold
    ensures { Delivers comparison_bytes comparison_told
        (explained (given_of baseline.entry) (given_of candidate.entry))
        out.old result out.new }
{
    let mut xd = [0usize; EXPORT_DIFF_CELLS];
    let mut cd = [0usize; NEED_DIFF_CELLS];
    match compare_modules(baseline, candidate, &mut xd, &mut cd) {
        Err(why) => no_comparison(why),
        Ok(lists) => {
            let diffs = GivenDiffs {
                exports: GivenTable {
                    cells: &xd,
                    count: lists.exports,
                },
                needs: GivenTable {
                    cells: &cd,
                    count: lists.capabilities,
                },
            };
            lay_comparison(baseline, candidate, diffs, lists.compatible, out)
        }
    }
}

// A module's imports and exports. What else a reader notes takes room only while it reads: not merged with what calls it, whose frame lies
// under the whole comparison.
#[inline(never)]
fn read_rows(file: &[u8], imports: &mut [usize], exports: &mut [usize]) -> Result<Module, Refusal>
    ensures { RowsRead file.now (length imports.old) (length exports.old)
        imports.new exports.new (said_module result) }
{
    let mut tables = LentTables {
        sections: &mut [0; SECTION_CELLS],
        imports,
        exports,
        names: &mut [0; NAME_CELLS],
    };
    wasm::read_module(file, &mut tables)
}

// A module that was read against a candidate's file.
fn list_against(baseline: GivenModule, candidate: &[u8], out: &mut [u8]) -> ComparisonTold
    ensures { Delivers comparison_bytes comparison_told
        (against (given_of baseline.entry) candidate.now)
        out.old result out.new }
{
    let mut imports = [0usize; IMPORT_CELLS];
    let mut exports = [0usize; EXPORT_CELLS];
    match read_rows(candidate, &mut imports, &mut exports) {
        Err(why) => no_comparison(why),
        Ok(m) => {
            let candidate = GivenModule {
                file: candidate,
                imports: GivenTable {
                    cells: &imports,
                    count: m.imports,
                },
                exports: GivenTable {
                    cells: &exports,
                    count: m.exports,
                },
            };
            list_differences(baseline, candidate, out)
        }
    }
}

// Two files that are short enough.
fn list_builds(baseline: &[u8], candidate: &[u8], out: &mut [u8]) -> ComparisonTold
    ensures { Delivers comparison_bytes comparison_told (builds baseline.now candidate.now)
        out.old result out.new }
{
    let mut imports = [0usize; IMPORT_CELLS];
    let mut exports = [0usize; EXPORT_CELLS];
    match read_rows(baseline, &mut imports, &mut exports) {
        Err(why) => no_comparison(why),
        Ok(m) => {
            let baseline = GivenModule {
                file: baseline,
                imports: GivenTable {
                    cells: &imports,
                    count: m.imports,
                },
                exports: GivenTable {
                    cells: &exports,
                    count: m.exports,
                },
            };
            list_against(baseline, candidate, out)
        }
    }
}

// The files are read with tables at the limits: 14 of either, the baseline's refusals, the candidate's, then 16.
pub fn list_comparison<'a, 'b>(
    baseline: &'a [u8],
    candidate: &'a [u8],
    out: &'b mut [u8],
) -> ComparisonTold
    ensures { Delivers comparison_bytes comparison_told (comparison baseline.now candidate.now)
        out.old result out.new }
{
    if baseline.len() > MAX_FILE || candidate.len() > MAX_FILE {
        return no_comparison(Refusal::TooLong);
    }
    list_builds(baseline, candidate, out)
}

// compat.rs: the comparison of two builds.
#![tactic(auto)]

mod keys;
mod listing;

ghost use Rattle.std.specs.Prelude.{◌≡◌, [], length};
ghost use Rattle.table.specs.Table.{laid};
ghost use Rattle.table.specs.Shape.{capacity_in};
ghost use Rattle.differences.specs.Compared.{given_of, viewed, Good, lists, roomed, compared, Compares};
ghost use Rattle.compat.specs.Answer.{said_compared};

use crate::keys::{MAX_KEYS, Rows};
use crate::listing::{breaks_nothing, lay_exports, lay_needs, list_rows};
use differences::{GivenModule, check_both};
use refusal::Refusal;
use table::shape::{EXPORT_DIFF_WIDTH, MAX_EXPORT_DIFFS, MAX_NEED_DIFFS, NEED_DIFF_WIDTH};

// How long the two lists are, and whether no export was removed and no capability added.
#[derive(Clone, Copy)]
pub struct Lists {
    pub exports: usize,
    pub capabilities: usize,
    pub compatible: bool,
}

// The lists of tables that passed, into tables 8 and 9, which are zero.
fn compare_tables(
    baseline: GivenModule,
    candidate: GivenModule,
    xd: &mut [usize],
    cd: &mut [usize],
) -> Result<Lists, Refusal>
    requires good { (Good (given_of baseline)) × (Good (given_of candidate)) }
    requires xd_value { (xd.old ≡ laid (length xd.old) []) × (cd.old ≡ laid (length cd.old) []) }
    ensures { Compares (roomed (capacity_in 8 (length xd.old)) (capacity_in 9 (length cd.old))
        (lists (viewed (given_of baseline.entry)) (viewed (given_of candidate.entry))))
        xd.old xd.new cd.old cd.new (said_compared result) }
{
    let mut exports = [0usize; MAX_KEYS];
    let m = list_rows(Rows::Exports, baseline, candidate, &mut exports);
    if table::capacity(xd.len(), EXPORT_DIFF_WIDTH, MAX_EXPORT_DIFFS) < m {
        return Err(Refusal::Full(8));
    }
    let mut needs = [0usize; MAX_KEYS];
    let n = list_rows(Rows::Needs, baseline, candidate, &mut needs);
    if table::capacity(cd.len(), NEED_DIFF_WIDTH, MAX_NEED_DIFFS) < n {
        return Err(Refusal::Full(9));
    }
    lay_exports(&exports[..m], baseline.exports.count, xd);
    lay_needs(baseline, candidate, &needs[..n], cd);
    Ok(Lists {
        exports: m,
        capabilities: n,
        compatible: breaks_nothing(baseline, &exports[..m], &needs[..n]),
    })
}

// Tables 8 and 9: what was removed from the baseline and added in the candidate. The two lists that are written stay two parameters: a
// struct of both would be made for this call alone.
pub fn compare_modules(
    baseline: GivenModule,
    candidate: GivenModule,
    xd: &mut [usize],
    cd: &mut [usize],
) -> Result<Lists, Refusal>
    ensures { Compares (compared (given_of baseline.entry) (given_of candidate.entry)
        (capacity_in 8 (length xd.old)) (capacity_in 9 (length cd.old)))
        xd.old xd.new cd.old cd.new (said_compared result) }
{
    table::clear(xd);
    table::clear(cd);
    check_both(baseline, candidate)?;
    compare_tables(baseline, candidate, xd, cd)
}

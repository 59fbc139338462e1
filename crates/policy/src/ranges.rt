// A policy handed in beside its text: its ranges may be anything.
ghost use Rattle.std.specs.Prelude.{◌≡◌};
ghost use Rattle.refusal.specs.Said.{said_by};
ghost use Rattle.policy.specs.Eight.{bad_row, policy_test};

use crate::Policy;
use refusal::{Refusal, fits};
use text::pieces::test_text;

// The row of the name's range, after those of the rules.
const NAME_ROW: usize = 7;

// The first of a policy's eight ranges that leaves n bytes.
fn first_bad(p: Policy, n: usize) -> Option<usize>
    ensures { result ≡ bad_row n p }
{
    for (i, rule) in p.rules.iter().enumerate() {
        if !fits(n, rule.from, rule.len) {
            return Some(i);
        }
    }
    if fits(n, p.start, p.size) {
        None
    } else {
        Some(NAME_ROW)
    }
}

// 14, 4, and 15: rows 0 to 6 are the rules' ranges, 7 is the name's.
pub fn test_policy(s: &[u8], p: Policy) -> Result<(), Refusal>
    ensures { said_by result ≡ policy_test s.now p }
{
    test_text(s)?;
    match first_bad(p, s.len()) {
        Some(row) => Err(Refusal::BadTable(row)),
        None => Ok(()),
    }
}

// Evaluation over one lent list of requirement records.
ghost use Rattle.std.specs.Prelude.{◌≡◌};
ghost use Rattle.verdicts.specs.Evaluate.{evaluated, said_evaluation};
ghost use Rattle.verdicts.specs.Records.{numbers};

use crate::{Asking, Evaluation, evaluate_rows};
use policy::Policy;
use refusal::Refusal;

// A domain that is required, and the row that asks for it.
#[repr(C)]
#[derive(Clone, Copy)]
pub struct Requirement {
    pub domain: usize,
    pub row: usize,
}

impl Asking for Requirement {
    ghost number = { λ r. r.domain };

    fn domain(&self) -> usize {
        self.domain
    }
}

// The verdicts of a policy on the first n records of a list.
pub fn evaluate(list: &[Requirement], n: usize, p: Policy) -> Result<Evaluation, Refusal>
    ensures { said_evaluation result ≡ evaluated (numbers list.now) n p }
{
    evaluate_rows(list, n, p)
}

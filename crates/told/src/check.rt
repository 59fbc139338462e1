// What verdicts tell.
ghost use Rattle.std.specs.Prelude.{◌≡◌};
ghost use Rattle.verdicts.specs.Evaluate.{said_evaluation};
ghost use Rattle.told.specs.Check.{verdict_told, evaluation_told};

use refusal::Refusal;
use verdicts::{Evaluation, Verdict};

#[repr(C)]
#[derive(Clone, Copy)]
pub struct VerdictTold {
    pub required: bool,
    pub allowed: bool,
    pub many: usize,
}

// The verdicts in domain order; bit d of `set`: domain d violates; `count` is how many do.
#[repr(C)]
#[derive(Clone, Copy)]
pub struct EvaluationTold {
    pub number: u32,
    pub place: usize,
    pub offset: usize,
    pub verdicts: [VerdictTold; 7],
    pub set: u32,
    pub count: usize,
    pub compliant: bool,
}

const NO_VERDICT: VerdictTold = VerdictTold {
    required: false,
    allowed: false,
    many: 0,
};

fn verdict_of(v: Verdict) -> VerdictTold
    ensures { result ≡ verdict_told v }
{
    VerdictTold {
        required: v.required,
        allowed: v.allowed,
        many: v.many,
    }
}

// Refused, everything but number, place and the offset beside it is zero.
pub fn evaluation_of(e: Result<Evaluation, Refusal>) -> EvaluationTold
    ensures { result ≡ evaluation_told (said_evaluation e) }
{
    match e {
        Ok(told) => EvaluationTold {
            number: 0,
            place: 0,
            offset: 0,
            verdicts: told.verdicts.map(verdict_of),
            set: told.set,
            count: told.count,
            compliant: verdicts::is_compliant(e),
        },
        Err(why) => EvaluationTold {
            number: refusal::number(why),
            place: refusal::place(why),
            offset: refusal::beside(why),
            verdicts: [NO_VERDICT; 7],
            set: 0,
            count: 0,
            compliant: false,
        },
    }
}

// What an answer with no value tells.
ghost use Rattle.std.specs.Prelude.{◌≡◌};
ghost use Rattle.refusal.specs.Said.{said_by};
ghost use Rattle.told.specs.Answers.{answer_told};

use crate::policies::{beside_of, number_of, place_of};
use refusal::Refusal;

// `offset`, here and in every struct that answers for a module, is the offset beside 5; 0 for any other.
#[repr(C)]
#[derive(Clone, Copy)]
pub struct AnswerTold {
    pub number: u32,
    pub place: usize,
    pub offset: usize,
}

pub fn answer_of(a: Result<(), Refusal>) -> AnswerTold
    ensures { result ≡ answer_told (said_by a) }
{
    AnswerTold {
        number: number_of(a),
        place: place_of(a),
        offset: beside_of(a),
    }
}

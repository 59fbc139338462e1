// Strict reading over the C interface: the answer alone, since the rows are those of the plain reader.
ghost use Rattle.std.specs.Prelude.{◌≡◌};
ghost use Rattle.conform.specs.Sound.{limits};
ghost use Rattle.strict.specs.Rules.{tested_at};
ghost use Rattle.told.specs.Answers.{answer_told};

use told::answers::{AnswerTold, answer_of};

// Whether a module's file is clean in what is read.
pub fn viscrombal_strict(file: &[u8]) -> AnswerTold
    ensures { result ≡ answer_told (tested_at file.now limits) }
{
    answer_of(strict::test_strict(file))
}

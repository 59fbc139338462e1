// Verdicts over the C interface.
ghost use Rattle.std.specs.Prelude.{◌≡◌};
ghost use Rattle.checking.specs.Checking.{checked_of};
ghost use Rattle.told.specs.Check.{evaluation_told};

use checking::check_module;
use told::check::{EvaluationTold, evaluation_of};

// The whole check of a module's file against a policy's text.
pub fn viscrombal_check(file: &[u8], text: &[u8]) -> EvaluationTold
    ensures { result ≡ evaluation_told (checked_of file.now text.now) }
{
    evaluation_of(check_module(file, text))
}

ghost use Rattle.std.specs.Prelude.{◌≡◌, Ok, Err, MatchResult};
ghost use Rattle.answer_reader.specs.declared.answer_err.AnswerErr.TheVariants.{At};

use crate::answer_err::{AnswerCause, AnswerErr};

/// What a line says, with a cause turned into the error of this line.
pub(crate) fn on_line<T>(line: u32, said: Result<T, AnswerCause>) -> Result<T, AnswerErr>
    ensures { MatchResult said (λ value. result ≡ Ok value)
        (λ cause. result ≡ Err (At line cause)) }
{
    match said {
        Ok(value) => Ok(value),
        Err(cause) => Err(AnswerErr::At { line, cause }),
    }
}

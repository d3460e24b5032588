ghost use Rattle.std.specs.Prelude.{◌≡◌, ℕ, ◌<◌, ◌^◌, length};
ghost use Rattle.violation.specs.Moves.{is_final};
ghost use Rattle.violation.specs.Prefixes.{kind_of_bits};
ghost use Rattle.cert_check.specs.Subjects.{problem_of};

use crate::subject::Subject;
use tier_core::Kind;

/// Whether a kind is final: the whole form has been read, and no free tier is open.
pub(crate) fn is_final(subject: &Subject, kind: &Kind) -> bool
    requires opened { kind.now.opened < 2 ^ length (problem_of subject.now).tiers.free }
    ensures { (stage : ℕ) → result
        ≡ is_final (problem_of subject.now) (kind_of_bits (problem_of subject.now) stage kind.now) }
{
    kind.place as usize == subject.answer.form.len() && kind.opened == 0
}

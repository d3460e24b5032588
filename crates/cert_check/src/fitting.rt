ghost use Rattle.std.specs.Prelude.{◌≡◌, ◌+◌, ◌≤◌, ◌&&◌, ◌||◌, ℕ, IfOk, OnOk, not, length};
ghost use Rattle.violation.specs.Prefixes.{kind_of_bits};
ghost use Rattle.violation.specs.Problems.{last_place};
ghost use Rattle.cert_check.specs.Fitting.{AreFitting};
ghost use Rattle.cert_check.specs.Subjects.{IsReady, problem_of};

use crate::fit_boxes::{coming_box, edgeless_box, reading_box, still_box};
use crate::open::open_tiers;
use crate::subject::Subject;
use std::alloc::{AllocError, Global};
use symbol_class::{meet, push_minus};
use tier_core::{Class, Kind};

/// The columns that fit a kind, in pieces: those without an edge on the input tiers, and those that
/// have the form's next column there.
pub(crate) fn fitting(
    alloc: Global,
    subject: &Subject,
    kind: &Kind,
) -> Result<Vec<Class>, AllocError>
    requires ready { IsReady subject.now }
    requires place { kind.now.place ≤ last_place (problem_of subject.now) }
    ensures { (stage : ℕ) → IfOk result (λ pieces.
        AreFitting (problem_of subject.now) (kind_of_bits (problem_of subject.now) stage kind.now)
        pieces.items) }
{
    let kinds = subject.grammar.tiers.kinds.as_slice();
    let form = &subject.answer.form;
    let width = kinds.len() as u32;
    let coming = coming_box(width, open_tiers(kinds, form, kind));
    let still = meet(&coming, &still_box(kinds));
    let mut pieces = Vec::new(alloc);
    push_minus(&mut pieces, &still, &edgeless_box(width))?;
    let place = kind.place as usize;
    if place == form.len() {
        return Ok(pieces);
    }
    let reading = meet(&coming, &reading_box(kinds, form.column(place).syms()));
    push_minus(&mut pieces, &reading, &still)?;
    Ok(pieces)
}

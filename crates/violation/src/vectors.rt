ghost use Rattle.std.specs.Prelude.{◌≡◌, ◌≤◌, length, All, IfOk};
ghost use Rattle.violation.specs.Candidates.{vec, vec_cmp};
ghost use Rattle.violation.specs.Conditions.{IsCountable};

use crate::count::violations;
use std::alloc::Global;
use std::cmp::Ordering;
use tier_core::{Constraint, NoMemory, Timeline};

/// The violation vector of a timeline: its violations of each constraint, in ranked order. The
/// timeline is well formed over the tiers of the constraints, and has at most 65,536 columns.
/// Fails only if memory runs out.
pub fn vector(
    alloc: Global,
    constraints: &[Constraint],
    timeline: &Timeline,
) -> Result<Vec<u32>, NoMemory>
    requires countable { All (λ c. IsCountable c.left c.right timeline.now) constraints.now }
    requires few { length timeline.now ≤ 65536 }
    ensures { IfOk result (λ counts. counts.items ≡ vec constraints.now timeline.now) }
{
    let mut counts = Vec::new(alloc);
    for constraint in constraints {
        let count = violations(timeline, constraint);
        if counts.push(count).is_err() {
            return Err(NoMemory);
        }
    }
    Ok(counts)
}

/// Compares vectors of one length: the highest constraint on which they differ decides.
pub fn vector_cmp(a: &[u32], b: &[u32]) -> Ordering
    requires { length a.now ≡ length b.now }
    ensures { result ≡ vec_cmp a.now b.now }
{
    a.cmp(b)
}

ghost use Rattle.std.specs.Prelude.{◌≡◌, map, IfOk};
ghost use Rattle.std.specs.String.{string_bytes};

use std::alloc::Global;
use tier_core::{Constraint, NoMemory};

/// A copy of numbers. It fails only if memory runs out.
pub(crate) fn copied_counts(alloc: Global, counts: &[u32]) -> Result<Vec<u32>, NoMemory>
    ensures { IfOk result (λ copy. copy.items ≡ counts.now) }
{
    match Vec::from_slice(alloc, counts) {
        Ok(copy) => Ok(copy),
        Err(_) => Err(NoMemory),
    }
}

/// The names of constraints. It fails only if memory runs out.
pub(crate) fn names_of(alloc: Global, constraints: &[Constraint]) -> Result<Vec<String>, NoMemory>
    ensures { IfOk result
        (λ names.
        map string_bytes names.items ≡ map (λ c. string_bytes c.name) constraints.now) }
{
    let mut names = Vec::new(alloc);
    for constraint in constraints {
        let Ok(name) = String::from_str(alloc, constraint.name.as_str()) else {
            return Err(NoMemory);
        };
        if names.push(name).is_err() {
            return Err(NoMemory);
        }
    }
    Ok(names)
}

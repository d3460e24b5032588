ghost use Rattle.std.specs.Prelude.{◌≡◌, ◌≤◌, length, IfOk, if◌then◌else◌};
ghost use Rattle.grammar_reader.specs.ShapeOf.{IsShapeOf, stretch_counts};

use crate::grammar::Grammar;
use std::alloc::Global;
use tier_core::{Constraint, NoMemory, Shape, TierKind};

fn one_where(is_stretch: bool) -> u32
    ensures { result ≡ (if is_stretch then 1 else 0) }
{
    if is_stretch { 1 } else { 0 }
}

/// The number of stretch implications among the first r constraints, for each r from 0.
fn phases(alloc: Global, constraints: &[Constraint]) -> Result<Vec<u32>, NoMemory>
    requires { length constraints.now ≤ 24 }
    ensures { IfOk result (λ v. v.items ≡ stretch_counts constraints.now) }
{
    let mut phases = Vec::new(alloc);
    let mut count = 0;
    if phases.push(count).is_err() {
        return Err(NoMemory);
    }
    for constraint in constraints {
        count += one_where(constraint.is_stretch());
        match phases.push(count) {
            Ok(()) => {}
            Err(_) => return Err(NoMemory),
        }
    }
    Ok(phases)
}

/// What the text of an answer takes from a grammar: its width, its input tiers, and for each r the
/// number of stretch implications among its first r constraints. Fails only if memory runs out.
pub fn shape(alloc: Global, grammar: &Grammar) -> Result<Shape, NoMemory>
    ensures { IfOk result (IsShapeOf grammar.now) }
{
    let phases = phases(alloc, &grammar.constraints)?;
    Ok(Shape {
        width: grammar.tiers.kinds.as_slice().len() as u32,
        inputs: grammar.tiers.mask(TierKind::Input),
        phases,
    })
}

ghost use Rattle.std.specs.Prelude.{◌≡◌, ◌++◌, IfOk, map};
ghost use Rattle.otp_tool.specs.Samples.{leads_to, pairs_of, targets_of};

use answer_text::{ArcLine, StateLine};
use std::alloc::{AllocError, Global};

/// Whether an arc leads to a target.
fn leads_to(target: u32, arcs: &[ArcLine]) -> bool
    ensures { result ≡ leads_to target arcs.now }
{
    arcs.iter().any(|arc| arc.target == target)
}

/// Appends the pairs of a state with the targets of its arcs, each once.
fn push_pairs(pairs: &mut Vec<(u32, u32)>, node: u32, arcs: &[ArcLine]) -> Result<(), AllocError>
    ensures { IfOk result (λ done. pairs.new.items
        ≡ pairs.old.items ++ map (λ target. (node, target)) (targets_of arcs.now)) }
{
    for (place, arc) in arcs.iter().enumerate() {
        if leads_to(arc.target, &arcs[place + 1..]) {
            continue;
        }
        pairs.push((node, arc.target))?;
    }
    Ok(())
}

/// The pairs of states with an arc from the one to the other. Fails only if memory runs out.
pub(crate) fn pairs_of(alloc: Global, states: &[StateLine]) -> Result<Vec<(u32, u32)>, AllocError>
    ensures { IfOk result (λ pairs. pairs.items ≡ pairs_of states.now) }
{
    let mut pairs = Vec::new(alloc);
    for state in states {
        push_pairs(&mut pairs, state.node, state.arcs.as_slice())?;
    }
    Ok(pairs)
}

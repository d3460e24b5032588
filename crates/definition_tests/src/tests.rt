mod by_hand;
mod compared;
mod tables;

use grammar_reader::read_grammar;
use std::alloc::Global;
use std::test::Fail;
use tier_core::Constraint;

/// Tiers A and a, and tiers A, a and b.
const TWO: &[u8] = b"otp 1\ntier A input\ntier a overt\n";

const THREE: &[u8] = b"otp 1\ntier A input\ntier a overt\ntier b hidden\n";

/// The constraint over these tiers that is written in this way in the grammar language.
fn constraint_of(alloc: Global, tiers: &[u8], constraint: &[u8]) -> Result<Constraint, Fail> {
    let mut text = tiers.to_vec(alloc)?;
    text.extend_from_slice(b"constraint X ")?;
    text.extend_from_slice(constraint)?;
    if text.len() > 65_536 {
        return Err(Fail::new("the text is too long"));
    }
    let mut grammar = read_grammar(alloc, &text)?;
    match grammar.constraints.pop() {
        Some(constraint) => Ok(constraint),
        None => Err(Fail::new("no constraint")),
    }
}

//! Tests of the checker on texts of answers: a right one gets Yes, and one with an altered line gets the
//! fault that comes first. No other crate depends on this one.
#![tactic(auto)]

#[cfg(test)]
mod tests;

ghost use Rattle.std.specs.Prelude.{◌≡◌, ◌||◌, List, length, IfSome, IsTrue};
ghost use Rattle.tier_core.specs.declared.sym.Sym.{Sym};
ghost use Rattle.tier_core.specs.Classes.{sets_of, has};
ghost use Rattle.symbol_class.specs.Held.{once_if};
ghost use Rattle.symbol_class.specs.Parts.{differs};

use symbol_class::{Difference, Shares, share_of};
use tier_core::Class;

/// What the columns from a kind do under the last constraint of a stage, a stretch implication. Its
/// phase is met after the columns that pass `begun` or `met`; those that lead to one kind at the
/// stage before pass `begun` alike. The columns that pass `cost` cost 1 under the constraint, and the
/// others nothing. `bit` is the place of the phase's bit in kinds.
#[derive(Clone, Copy, Debug)]
pub struct LastTests {
    pub bit: u32,
    pub begun: Difference,
    pub met: Difference,
    pub cost: Difference,
}

/// Whether all columns of a class are in a difference, or none is. `None` if that may differ.
fn surely(class: &Class, test: &Difference) -> Option<bool>
    requires { length (sets_of class.now) ≡ length (sets_of test.now.within) }
    ensures { IfSome result (λ all. (column : List Sym) → IsTrue (has class.now column)
        → differs test.now column ≡ all) }
{
    match share_of(class, test) {
        Shares::Nothing => Some(false),
        Shares::Everything => Some(true),
        Shares::Part => None,
    }
}

impl LastTests {
    /// Whether the phase is met after all columns of a class, or after none. `None` if that may
    /// differ.
    pub fn is_met_after(&self, class: &Class) -> Option<bool>
        requires begun { length (sets_of class.now) ≡ length (sets_of self.now.begun.within) }
        requires met { length (sets_of class.now) ≡ length (sets_of self.now.met.within) }
        ensures { IfSome result (λ all. (column : List Sym) → IsTrue (has class.now column)
            → (differs self.now.begun column || differs self.now.met column) ≡ all) }
    {
        match surely(class, &self.met) {
            None => None,
            Some(true) => Some(true),
            Some(false) => surely(class, &self.begun),
        }
    }

    /// What each column of a class costs. `None` if that may differ.
    pub fn cost_of(&self, class: &Class) -> Option<u32>
        requires { length (sets_of class.now) ≡ length (sets_of self.now.cost.within) }
        ensures { IfSome result (λ cost. (column : List Sym) → IsTrue (has class.now column)
            → once_if (differs self.now.cost column) ≡ cost) }
    {
        match surely(class, &self.cost) {
            None => None,
            Some(true) => Some(1),
            Some(false) => Some(0),
        }
    }
}

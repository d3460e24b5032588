ghost use Rattle.std.specs.Prelude.{◌≡◌, ◌&&◌, not, length, OnOk};
ghost use Rattle.tier_core.specs.Classes.{sets_of, has};
ghost use Rattle.symbol_class.specs.Held.{once_if, AddsClasses};

use crate::boxes::nothing;
use crate::fit_boxes::{edgeless, following, with_input, without_input};
use crate::frame::Frame;
use std::alloc::{AllocError, Global};
use symbol_class::{is_empty, meet, push_minus};
use tier_core::{Class, Kind, NoMemory};

/// Puts the pieces of `a` without `b` at the end of a list: `a` itself if they have no column in
/// common.
fn push_rest(pieces: &mut Vec<Class>, a: &Class, b: &Class) -> Result<(), AllocError>
    requires { length (sets_of a.now) ≡ length (sets_of b.now) }
    ensures { OnOk result
        (AddsClasses (length (sets_of a.now)) pieces.old.items pieces.new.items
        (λ column. once_if (has a.now column && not (has b.now column)))) }
{
    if is_empty(a) {
        return Ok(());
    }
    if is_empty(&meet(a, b)) {
        pieces.push(*a)?;
        return Ok(());
    }
    push_minus(pieces, a, b)?;
    Ok(())
}

impl<'a> Frame<'a> {
    ghost use Rattle.std.specs.Prelude.{◌≤◌, ◌<◌, ◌↔◌, ℕ, All, IfOk, IsTrue, List};
    ghost use Rattle.tier_core.specs.declared.sym.Sym.{Sym};
    ghost use Rattle.tier_core.specs.Timelines.{column_at};
    ghost use Rattle.violation.specs.Moves.{input_of};
    ghost use Rattle.kind_moves.specs.Frames.{tiers_in, form_in};
    ghost use Rattle.kind_moves.specs.Fitting.{AreFitting, IsReadAlike};

    /// The columns of a class whose input part is the form's column at a place. There is none where
    /// the form ends.
    pub(crate) fn reading(&self, class: &Class, place: u32) -> Class
        requires width { length (sets_of class.now) ≡ (tiers_in self.now).width }
        requires place { place ≤ length (form_in self.now) }
        ensures width { length (sets_of result) ≡ length (sets_of class.now) }
        ensures columns { (column : List Sym) → IsTrue (has result column)
            ↔ (IsTrue (has class.now column) × ((place < length (form_in self.now))
            × (input_of (tiers_in self.now) column ≡ column_at (form_in self.now) place))) }
    {
        let place = place as usize;
        if place == self.form.len() {
            return nothing(class);
        }
        let kinds = self.grammar.tiers.kinds.as_slice();
        with_input(class, kinds, self.form.column(place).syms())
    }

    /// The columns of a class that fit a kind, in pieces: first those without an edge on the input
    /// tiers, then those whose input part is the next column of the form.
    fn fitting_pieces(
        &self,
        alloc: Global,
        kind: &Kind,
        class: &Class,
    ) -> Result<Vec<Class>, AllocError>
        requires place { kind.now.place ≤ length (form_in self.now) }
        requires width { length (sets_of class.now) ≡ (tiers_in self.now).width }
        ensures fitting { (stage : ℕ) → IfOk result
            (λ pieces. AreFitting self.now stage kind.now class.now pieces.items) }
        ensures read { IfOk result (λ pieces. All (IsReadAlike self.now) pieces.items) }
    {
        let kinds = self.grammar.tiers.kinds.as_slice();
        let following = following(class, self.open_at(kind));
        let still = without_input(&following, kinds);
        let read = self.reading(&following, kind.place);
        let mut pieces = Vec::new(alloc);
        push_rest(&mut pieces, &still, &edgeless(&still))?;
        push_rest(&mut pieces, &read, &still)?;
        Ok(pieces)
    }

    /// The columns of a class that fit a kind, in pieces. It fails only if memory runs out.
    pub(crate) fn fitting(
        &self,
        alloc: Global,
        kind: &Kind,
        class: &Class,
    ) -> Result<Vec<Class>, NoMemory>
        requires place { kind.now.place ≤ length (form_in self.now) }
        requires width { length (sets_of class.now) ≡ (tiers_in self.now).width }
        ensures fitting { (stage : ℕ) → IfOk result
            (λ pieces. AreFitting self.now stage kind.now class.now pieces.items) }
        ensures read { IfOk result (λ pieces. All (IsReadAlike self.now) pieces.items) }
    {
        match self.fitting_pieces(alloc, kind, class) {
            Ok(pieces) => Ok(pieces),
            Err(_) => Err(NoMemory),
        }
    }
}

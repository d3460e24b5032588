ghost use Rattle.std.specs.Prelude.{◌≡◌, ◌≤◌, length};
ghost use Rattle.tier_core.specs.Tables.{tiers_of_table};
ghost use Rattle.tier_core.specs.Tiers.{tiers_of};
ghost use Rattle.grammar_reader.specs.ShapeOf.{IsShapeOf};
ghost use Rattle.violation.specs.Candidates.{IsForm};
ghost use Rattle.kind_moves.specs.Masks.{AreOpenInputs};

use crate::cost::costs;
use crate::fit::{has_edge, may_follow};
use crate::mask::{laid_out, lowest_bits, open_after, taken_from};
use crate::open::{free_tiers, open_inputs};
use crate::phase::next_phases;
use crate::phase_masks::PhaseMasks;
use grammar_reader::{Grammar, shape};
use std::alloc::Global;
use tier_core::{Column, Kind, NoMemory, Shape, Sym, Timeline, has_bit};
use violation::{has_input_edge, has_input_part};

/// A grammar and a form, with what each move looks up: the grammar's shape, its free tiers, and for
/// each place of the form the mask of the input tiers that are open there.
#[derive(Drop)]
pub struct Frame<'a> {
    pub grammar: &'a Grammar,
    pub form: &'a Timeline,
    pub shape: Shape,
    pub(crate) free: u16,
    free_count: u32,
    open_inputs: Vec<u16>,
    pub ghost well_formed: { ∥ IsForm (tiers_of_table grammar.now.tiers) form.now ∥₁ },
    pub ghost short: { length form.now ≤ 64 },
    pub ghost shape_of: { IsShapeOf grammar.now shape },
    pub ghost free_tiers: { tiers_of free ≡ (tiers_of_table grammar.now.tiers).free },
    pub ghost count: { free_count ≡ length (tiers_of_table grammar.now.tiers).free },
    pub ghost few_free: { free_count ≤ 12 },
    pub ghost inputs: { AreOpenInputs (tiers_of_table grammar.now.tiers) form.now
        open_inputs.items },
}

impl<'a> Frame<'a> {
    ghost use Rattle.std.specs.Prelude.{ℕ, ◌+◌, ◌-◌, ◌<◌, ◌^◌, ◌↔◌, ◌⊎◌, false, not, if◌then◌else◌, IsTrue, IfOk, MatchOption, map, slice_index_or};
    ghost use Rattle.std.specs.List.{list_any};
    ghost use Rattle.tier_core.specs.Scan.{opens};
    ghost use Rattle.tier_core.specs.Tiers.{has_tier};
    ghost use Rattle.tier_core.specs.Timelines.{symbol, column_at, has_edge};
    ghost use Rattle.tier_core.specs.Kinds.{open_tiers};
    ghost use Rattle.violation.specs.Moves.{input_of, is_final, is_tier_open, move_costs, next_phases};
    ghost use Rattle.violation.specs.Problems.{last_stage};
    ghost use Rattle.tier_core.specs.PhaseBits.{phases_by};
    ghost use Rattle.kind_moves.specs.Frames.{problem_in, tiers_in, constraints_in, form_in, stretches_in, kind_at_stage, FitsAt, FitsFrame, IsMove, IsStart};

    /// The frame of a grammar and a form over its input tiers, of at most 64 columns. It fails only
    /// if memory runs out.
    pub fn new(
        alloc: Global,
        grammar: &'a Grammar,
        form: &'a Timeline,
    ) -> Result<Frame<'a>, NoMemory>
        requires form { IsForm (tiers_of_table grammar.now.tiers) form.now }
        requires short { length form.now ≤ 64 }
        ensures grammar { IfOk result (λ frame. frame.grammar.now ≡ grammar.entry.now) }
        ensures form { IfOk result (λ frame. form_in frame ≡ form.entry.now) }
    {
        let open_inputs = open_inputs(alloc, &grammar.tiers, form)?;
        let shape = shape(alloc, grammar)?;
        Ok(Frame {
            grammar,
            form,
            shape,
            free: free_tiers(&grammar.tiers),
            free_count: grammar.tiers.free_count() as u32,
            open_inputs,
        })
    }

    /// How many tiers are free: overt or hidden.
    pub fn free_count(&self) -> u32
        ensures value { result ≡ length (tiers_in self.now).free }
        ensures few { result ≤ 12 }
    {
        self.free_count
    }

    /// How many stretch implications are among the first `stage` constraints.
    pub fn stretch_count(&self, stage: u32) -> u32
        requires { stage ≤ last_stage (problem_in self.now) }
        ensures value { result ≡ length (stretches_in self.now stage) }
        ensures few { result ≤ 24 }
    {
        self.shape.phases[stage as usize]
    }

    /// The kind of the empty prefix, which is the same at every stage.
    pub fn start(&self) -> Kind
        ensures { (stage : ℕ) → IsStart self.now stage result }
    {
        Kind {
            place: 0,
            opened: 0,
            unmet: 0,
            met: 0,
        }
    }

    /// Whether no free tier is open at a kind.
    fn are_free_closed(&self, kind: &Kind) -> bool
        ensures { result
            ≡ not (list_any (λ flag. flag)
            (open_tiers (length (tiers_in self.now).free) kind.now.opened)) }
    {
        lowest_bits(kind.opened, self.free_count()) == 0
    }

    /// Whether a kind is final: the whole form has been read, and no free tier is open.
    pub fn at_end(&self, kind: &Kind) -> bool
        requires { kind.now.place ≤ length (form_in self.now) }
        ensures { (stage : ℕ) → result ≡ is_final (problem_in self.now)
            (kind_at_stage self.now stage kind.now) }
    {
        kind.place as usize == self.form.len() && self.are_free_closed(kind)
    }

    /// The mask of the tiers that are open at a kind.
    pub(crate) fn open_at(&self, kind: &Kind) -> u16
        requires { kind.now.place ≤ length (form_in self.now) }
        ensures { (stage t : ℕ) → has_tier result t
            ≡ is_tier_open (problem_in self.now) (kind_at_stage self.now stage kind.now) t }
    {
        self.open_inputs[kind.place as usize] | laid_out(self.free, kind.opened)
    }

    /// Whether a column has an edge on an input tier.
    fn reads_form(&self, column: &[Sym]) -> bool
        requires { length column.now ≡ (tiers_in self.now).width }
        ensures { result ≡ has_edge (input_of (tiers_in self.now) column.now) }
    {
        has_input_edge(self.grammar.tiers.kinds.as_slice(), column)
    }

    /// Whether the input part of a column has no edge or is the form's column at a place.
    fn goes_by_form(&self, place: usize, column: &[Sym]) -> bool
        requires width { length column.now ≡ (tiers_in self.now).width }
        requires place { place ≤ length (form_in self.now) }
        ensures { IsTrue result ↔ ((has_edge (input_of (tiers_in self.now) column.now) ≡ false) ⊎
            ((place < length (form_in self.now)) × (input_of (tiers_in self.now) column.now
            ≡ column_at (form_in self.now) place))) }
    {
        if !self.reads_form(column) {
            return true;
        }
        let kinds = self.grammar.tiers.kinds.as_slice();
        place < self.form.len() && has_input_part(kinds, column, self.form.column(place).syms())
    }

    /// Whether a column fits a kind.
    fn fits(&self, kind: &Kind, column: &[Sym]) -> bool
        requires width { length column.now ≡ (tiers_in self.now).width }
        requires place { kind.now.place ≤ length (form_in self.now) }
        ensures { (stage : ℕ) → IsTrue result ↔ FitsAt self.now stage kind.now column.now }
    {
        if !may_follow(self.open_at(kind), column) {
            return false;
        }
        if !has_edge(column) {
            return false;
        }
        self.goes_by_form(kind.place as usize, column)
    }

    /// The place after a column that fits at a place.
    fn next_place(&self, place: u32, column: &[Sym]) -> u32
        requires width { length column.now ≡ (tiers_in self.now).width }
        requires place { place ≤ 64 }
        ensures { result ≡ place + (if has_edge (input_of
            (tiers_in self.now) column.now) then 1 else 0) }
    {
        if self.reads_form(column) {
            place + 1
        } else {
            place
        }
    }

    /// The free tiers that are open after a column.
    fn next_opened(&self, column: &[Sym]) -> u16
        requires { length column.now ≡ (tiers_in self.now).width }
        ensures flags { open_tiers (length (tiers_in self.now).free) result
            ≡ map (λ t. opens (symbol column.now t)) (tiers_in self.now).free }
        ensures within { result < 2 ^ length (tiers_in self.now).free }
    {
        taken_from(self.free, open_after(column))
    }

    /// The phases of the stretch implications among the first constraints, after a column.
    fn next_phases(&self, stage: u32, kind: &Kind, column: &[Sym]) -> PhaseMasks
        requires stage { stage ≤ last_stage (problem_in self.now) }
        requires width { length column.now ≡ (tiers_in self.now).width }
        ensures phases { phases_by (length (stretches_in self.now stage)) result.unmet result.met
            ≡ next_phases (stretches_in self.now stage)
            (kind_at_stage self.now stage kind.now).phases column.now }
        ensures unmet { result.unmet < 2 ^ length (stretches_in self.now stage) }
        ensures met { result.met < 2 ^ length (stretches_in self.now stage) }
    {
        let first = &self.grammar.constraints.as_slice()[..stage as usize];
        next_phases(first, kind, column)
    }

    /// The kind that a column leads to from a kind, under the first `stage` constraints. None exactly
    /// if the column does not fit the kind.
    pub fn moved(&self, stage: u32, kind: &Kind, column: &Column) -> Option<Kind>
        requires stage { stage ≤ last_stage (problem_in self.now) }
        requires fits { FitsFrame self.now stage kind.now }
        requires width { length column.now ≡ (tiers_in self.now).width }
        ensures { MatchOption result (FitsAt self.now stage kind.now column.now → ⊥)
            (IsMove self.now stage kind.now column.now) }
    {
        let syms = column.syms();
        if !self.fits(kind, syms) {
            return None;
        }
        let phases = self.next_phases(stage, kind, syms);
        Some(Kind {
            place: self.next_place(kind.place, syms),
            opened: self.next_opened(syms),
            unmet: phases.unmet,
            met: phases.met,
        })
    }

    /// What the move from a kind by a column costs under one of the first `stage` constraints, which
    /// is counted from 1 in ranked order: 0 or 1.
    pub fn cost(&self, stage: u32, constraint: u32, kind: &Kind, column: &Column) -> u32
        requires stage { stage ≤ last_stage (problem_in self.now) }
        requires some { 1 ≤ constraint }
        requires within { constraint ≤ stage }
        requires fits { FitsFrame self.now stage kind.now }
        requires width { length column.now ≡ (tiers_in self.now).width }
        ensures cost { result ≡ slice_index_or (move_costs (problem_in self.now) stage
            (kind_at_stage self.now stage kind.now) column.now) (constraint - 1) 0 }
        ensures few { result ≤ 1 }
    {
        let number = constraint as usize - 1;
        let constraints = self.grammar.constraints.as_slice();
        let is_unmet = has_bit(kind.unmet, self.stretch_count(constraint - 1));
        let opened = self.open_at(kind);
        if costs(&constraints[number], opened, is_unmet, column.syms()) {
            1
        } else {
            0
        }
    }
}

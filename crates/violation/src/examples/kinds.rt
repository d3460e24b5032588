//! Kinds of prefixes and moves of kinds, for the form `[ ]` of an input tier A, with one overt
//! tier a and the constraints `A -> a` and `a -> A`.
ghost use Rattle.std.specs.Prelude.{◌≡◌, true, false, [], ◌∷◌, String, codes};
ghost use Rattle.std.specs.List.Sorted.{IsStrictlySortedBy};
ghost use Rattle.std.specs.declared.alloc.Global.{Global};
ghost use Rattle.tier_core.specs.declared.constraint.Family.TheVariants.{Implication};
ghost use Rattle.tier_core.specs.Kinds.{closed, unmet, met, kind_order};
ghost use Rattle.violation.specs.Counts.{so_far};
ghost use Rattle.violation.specs.Moves.{FitsKind, cut_kind, is_final};
ghost use Rattle.violation.specs.Examples.{types, read_syms, timeline, two_tiers, max_a, dep_a, read_kind, kind_after, costs_by, moved_by, phase_after};
ghost use Rattle.violation.specs.Examples.{over_two};

/// Prefixes of each of the eight kinds. After `[[ +]` a has ended, so that A is met by it; after
/// `[[ ]+` a is met by A, though A has ended.
pub fn prefix_kinds()
    ensures nothing_read { (max dep : String Global)
        → kind_after max dep (codes "-[ -]") ≡ read_kind 0 (codes "-") (codes "..") }
    ensures alone { (max dep : String Global)
        → kind_after max dep (codes "-[") ≡ read_kind 0 (codes "+") (codes ".u") }
    ensures input_alone { (max dep : String Global)
        → kind_after max dep (codes "[-") ≡ read_kind 1 (codes "-") (codes "u.") }
    ensures input_met { (max dep : String Global)
        → kind_after max dep (codes "[[ +]") ≡ read_kind 1 (codes "-") (codes "m.") }
    ensures both { (max dep : String Global)
        → kind_after max dep (codes "[[") ≡ read_kind 1 (codes "+") (codes "mm") }
    ensures ended { (max dep : String Global)
        → kind_after max dep (codes "[- ]-") ≡ read_kind 2 (codes "-") (codes "..") }
    ensures after { (max dep : String Global)
        → kind_after max dep (codes "[- ][") ≡ read_kind 2 (codes "+") (codes ".u") }
    ensures over { (max dep : String Global)
        → kind_after max dep (codes "[[ ]+") ≡ read_kind 2 (codes "+") (codes ".m") }
{}

/// These kinds ascend in kind order.
pub fn ascending_kinds()
    ensures { IsStrictlySortedBy kind_order
        (read_kind 0 (codes "-") (codes "..") ∷ read_kind 0 (codes "+")
        (codes ".u") ∷ read_kind 1 (codes "-") (codes "u.") ∷ read_kind 1 (codes "-")
        (codes "m.") ∷ read_kind 1 (codes "+") (codes "mm") ∷ read_kind 2 (codes "-")
        (codes "..") ∷ read_kind 2 (codes "+") (codes ".u") ∷ read_kind 2 (codes "+")
        (codes ".m") ∷ []) }
{}

/// In `[[ |] ]-` the first A is met. The second begins where a ends, and is not met by what came
/// before. It is counted where it ends, at the third column.
pub fn met_ends_with_the_stretch()
    ensures before { phase_after (codes "A") (codes "a") [] ≡ closed }
    ensures first { phase_after (codes "A") (codes "a") (codes "[[") ≡ met }
    ensures second { phase_after (codes "A") (codes "a") (codes "[[ |]") ≡ unmet }
    ensures ended { phase_after (codes "A") (codes "a") (codes "[[ |] ]-") ≡ closed }
    ensures not_yet { so_far Implication (types (codes "Aa") (codes "A"))
        (types (codes "Aa") (codes "a")) (timeline (codes "[[ |] ]-")) 2 ≡ 0 }
    ensures counted { so_far Implication (types (codes "Aa") (codes "A"))
        (types (codes "Aa") (codes "a")) (timeline (codes "[[ |] ]-")) 3 ≡ 1 }
{}

/// A start at the stretch's own start does not meet it, and one inside does.
pub fn own_start_does_not_meet()
    ensures own { phase_after (codes "A") (codes "[a") (codes "[[") ≡ unmet }
    ensures later { phase_after (codes "A") (codes "[a") (codes "[- +[") ≡ met }
{}

/// Moves lead to the kind of the longer prefix: `|` on A begins a stretch, and one that is met
/// stays met.
pub fn moved_kinds()
    ensures begins { (max dep : String Global)
        → moved_by max dep (read_kind 0 (codes "-") (codes ".."))
        (codes "[[") ≡ read_kind 1 (codes "+") (codes "mm") }
    ensures stays_met { (max dep : String Global)
        → moved_by max dep (read_kind 1 (codes "+") (codes "mm")) (codes "+]")
        ≡ read_kind 1 (codes "-") (codes "m.") }
    ensures begins_again { (max dep : String Global)
        → moved_by max dep (read_kind 1 (codes "-") (codes "m.")) (codes "|-")
        ≡ read_kind 2 (codes "-") (codes "u.") }
    ensures ends { (max dep : String Global)
        → moved_by max dep (read_kind 1 (codes "+") (codes "mm")) (codes "]+")
        ≡ read_kind 2 (codes "+") (codes ".m") }
{}

/// A stretch that is not met costs 1 where it ends.
pub fn move_costs()
    ensures input_ends { (max dep : String Global)
        → costs_by max dep (read_kind 1 (codes "-") (codes "u.")) (codes "]-") ≡ 1 ∷ 0 ∷ [] }
    ensures input_met { (max dep : String Global)
        → costs_by max dep (read_kind 1 (codes "-") (codes "m.")) (codes "]-") ≡ 0 ∷ 0 ∷ [] }
    ensures overt_ends { (max dep : String Global)
        → costs_by max dep (read_kind 2 (codes "+") (codes ".u")) (codes "-]") ≡ 0 ∷ 1 ∷ [] }
    ensures begins { (max dep : String Global)
        → costs_by max dep (read_kind 0 (codes "-") (codes "..")) (codes "[[") ≡ 0 ∷ 0 ∷ [] }
{}

/// Which columns fit the kind of `[-`: the input tier is open, so that A may end there.
pub fn fitting_columns()
    ensures ends { FitsKind (over_two [] (timeline (codes "[ ]")))
        (read_kind 1 (codes "-") (codes "u.")) (read_syms (codes "]-")) }
    ensures begins_other { FitsKind (over_two [] (timeline (codes "[ ]")))
        (read_kind 1 (codes "-") (codes "u.")) (read_syms (codes "+[")) }
    ensures no_edge { FitsKind (over_two [] (timeline (codes "[ ]")))
        (read_kind 1 (codes "-") (codes "u.")) (read_syms (codes "+-")) → ⊥ }
    ensures starts_twice { FitsKind (over_two [] (timeline (codes "[ ]")))
        (read_kind 1 (codes "-") (codes "u.")) (read_syms (codes "[-")) → ⊥ }
    ensures not_the_form { FitsKind (over_two [] (timeline (codes "[ ]")))
        (read_kind 1 (codes "-") (codes "u.")) (read_syms (codes "|-")) → ⊥ }
{}

/// A kind is cut by dropping the phases of the later constraints, and is final at the end of the
/// form if no free tier is open.
pub fn cut_and_final_kinds()
    ensures cut_to_one { (max dep : String Global)
        → cut_kind (over_two (max_a max ∷ dep_a dep ∷ []) []) 1
        (read_kind 1 (codes "+") (codes "mu")) ≡ read_kind 1 (codes "+") (codes "m") }
    ensures cut_to_none { (max dep : String Global)
        → cut_kind (over_two (max_a max ∷ dep_a dep ∷ []) []) 0
        (read_kind 1 (codes "+") (codes "mu")) ≡ read_kind 1 (codes "+") [] }
    ensures at_end { is_final (over_two [] (timeline (codes "[ ]")))
        (read_kind 2 (codes "-") (codes "..")) ≡ true }
    ensures overt_open { is_final (over_two [] (timeline (codes "[ ]")))
        (read_kind 2 (codes "+") (codes ".m")) ≡ false }
    ensures too_early { is_final (over_two [] (timeline (codes "[ ]")))
        (read_kind 1 (codes "-") (codes "u.")) ≡ false }
{}

//! The moves of the one optimal candidate `[- ]-` of the form `[ ]`, where `a # a` is ranked above
//! `A -> a`, and this above `a -> A`. Of these, `A -> a` alone is violated.
ghost use Rattle.std.specs.Prelude.{◌≡◌, [], String, codes};
ghost use Rattle.std.specs.declared.alloc.Global.{Global};
ghost use Rattle.violation.specs.Examples.{read_kind};
ghost use Rattle.check_laws.specs.Worked.{cost_at, next_at, cut_to};

/// At stage 0 nothing costs, and at stage 1 an end of an overt constituent does.
pub fn overlaps_cost_at_their_end()
    ensures stage_zero { (name : String Global)
        → cost_at name 0 (read_kind 0 (codes "+") []) (codes "-]") ≡ 0 }
    ensures begins { (name : String Global)
        → cost_at name 1 (read_kind 0 (codes "-") []) (codes "-[") ≡ 0 }
    ensures ends { (name : String Global) → cost_at name 1 (read_kind 0 (codes "+") []) (codes "-]")
        ≡ 1 }
{}

/// At stage 2 the candidate costs at its second column, where the stretch ends unmet. So the
/// potentials 1, 1 and 0 of its kinds fall by just that.
pub fn unmet_stretches_cost_at_their_end()
    ensures begins { (name : String Global)
        → cost_at name 2 (read_kind 0 (codes "-") (codes ".")) (codes "[-") ≡ 0 }
    ensures unmet { (name : String Global)
        → next_at name 2 (read_kind 0 (codes "-") (codes "."))
        (codes "[-") ≡ read_kind 1 (codes "-") (codes "u") }
    ensures ends { (name : String Global)
        → cost_at name 2 (read_kind 1 (codes "-") (codes "u")) (codes "]-") ≡ 1 }
    ensures closed { (name : String Global)
        → next_at name 2 (read_kind 1 (codes "-") (codes "u")) (codes "]-")
        ≡ read_kind 2 (codes "-") (codes ".") }
{}

/// A kind of stage 3 has a phase for each of the two implications, and is cut to those of the
/// stages before.
pub fn kinds_are_cut_to_their_stages()
    ensures two { (name : String Global)
        → cut_to name 2 (read_kind 1 (codes "-") (codes "u."))
        ≡ read_kind 1 (codes "-") (codes "u") }
    ensures one { (name : String Global)
        → cut_to name 1 (read_kind 1 (codes "-") (codes "u.")) ≡ read_kind 1 (codes "-") [] }
{}

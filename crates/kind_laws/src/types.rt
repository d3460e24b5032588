ghost use Rattle.std.specs.Prelude.{◌≡◌, List, ◌∷◌, ◌++◌, Contains};
ghost use Rattle.tier_core.specs.declared.sym.Sym.{Sym};
ghost use Rattle.tier_core.specs.declared.event.Event.{Event};
ghost use Rattle.tier_core.specs.declared.constraint.Family.{Family};
ghost use Rattle.tier_core.specs.declared.constraint.Family.TheVariants.{Implication, Clash};
ghost use Rattle.violation.specs.Conditions.{IsCountable};
ghost use Rattle.violation.specs.Counts.{viol};
ghost use Rattle.kind_laws.specs.Types.{AreSameTypes};

/// Neither the order of the types in a conjunction nor repeating a type changes a count. A clash
/// looks at the types of both sides together.
pub fn repeated_types_change_no_count()
    ensures implication { (left right others more : List Event) (T : List (List Sym))
        → IsCountable left right T → IsCountable others more T → AreSameTypes left others
        → AreSameTypes right more → viol Implication left right T ≡ viol Implication others more T }
    ensures clash { (left right others more : List Event) (T : List (List Sym))
        → IsCountable left right T → IsCountable others more T
        → AreSameTypes (left ++ right) (others ++ more)
        → viol Clash left right T ≡ viol Clash others more T }
    ensures on_the_left { (family : Family) (e : Event) (left right : List Event)
        (T : List (List Sym)) → IsCountable left right T → Contains left e
        → viol family (e ∷ left) right T ≡ viol family left right T }
    ensures on_the_right { (family : Family) (e : Event) (left right : List Event)
        (T : List (List Sym)) → IsCountable left right T → Contains right e
        → viol family left (e ∷ right) T ≡ viol family left right T }
{}

//! Well-formed words and timelines, their order, and candidates.
ghost use Rattle.std.specs.Prelude.{◌≡◌, [], ◌∷◌, codes};
ghost use Rattle.std.specs.List.{AllByRecursion};
ghost use Rattle.std.specs.declared.cmp.Ordering.TheVariants.{Less, Equal, Greater};
ghost use Rattle.tier_core.specs.Words.{constituents, IsWellFormedWord};
ghost use Rattle.tier_core.specs.Timelines.{IsWellFormed, IsReduced, squeeze, project};
ghost use Rattle.tier_core.specs.Orders.{timeline_cmp};
ghost use Rattle.violation.specs.Examples.{read_syms, timeline, IsCandidateOf};

/// Well-formed words, one beside the other.
pub fn well_formed_words()
    ensures { AllByRecursion IsWellFormedWord
        (timeline (codes "- -- [] [+] -[]- [|] [||] []-[] [][] [+|+] -[++]-")) }
{}

/// Words that are not. In `[[]` two starts have one end, in `[]]` an end has no start, and in
/// `[-]` and `[]+` a symbol is not the one that the constituents draw.
pub fn ill_formed_words()
    ensures { AllByRecursion (λ w. IsWellFormedWord w → ⊥)
        (timeline (codes "+ [ ] | [- [+ [-] [[] []] []+ [+-] -]")) }
{}

/// The constituents of a word: each start with the next end.
pub fn constituents_of_words()
    ensures two { constituents (read_syms (codes "[+|]")) ≡ (0, 2) ∷ (2, 3) ∷ [] }
    ensures apart { constituents (read_syms (codes "-[]-[]")) ≡ (1, 2) ∷ (4, 5) ∷ [] }
    ensures unended { constituents (read_syms (codes "[++")) ≡ [] }
{}

/// A timeline is well formed over as many tiers as its columns have symbols, provided that each
/// tier is.
pub fn well_formed_timelines()
    ensures right { IsWellFormed 2 (timeline (codes "[- ]-")) }
    ensures too_wide { IsWellFormed 3 (timeline (codes "[- ]-")) → ⊥ }
    ensures unended { IsWellFormed 2 (timeline (codes "[- ][")) → ⊥ }
{}

/// A column without an edge makes a timeline not reduced, and is dropped by squeezing.
pub fn reduced_timelines()
    ensures reduced { IsReduced (timeline (codes "[- ]-")) }
    ensures not_reduced { IsReduced (timeline (codes "[- +- ]-")) → ⊥ }
    ensures squeezed { squeeze (timeline (codes "[- +- ]-")) ≡ timeline (codes "[- ]-") }
    ensures projected { project (1 ∷ []) (timeline (codes "[- +[ ]|")) ≡ timeline (codes "- [ |") }
{}

/// Shorter timelines come first, and of those of one length the one with the smaller symbol at the
/// first difference, in the order of `-`, `+`, `[`, `]` and `|`.
pub fn ordered_timelines()
    ensures fewer { timeline_cmp (timeline (codes "|")) (timeline (codes "- -")) ≡ Less }
    ensures first_column { timeline_cmp (timeline (codes "[- ]]"))
        (timeline (codes "[[ ]-")) ≡ Less }
    ensures outside { timeline_cmp (timeline (codes "-")) (timeline (codes "+")) ≡ Less }
    ensures inside { timeline_cmp (timeline (codes "+")) (timeline (codes "[")) ≡ Less }
    ensures start { timeline_cmp (timeline (codes "[")) (timeline (codes "]")) ≡ Less }
    ensures end { timeline_cmp (timeline (codes "]")) (timeline (codes "|")) ≡ Less }
    ensures same { timeline_cmp (timeline (codes "[ ]")) (timeline (codes "[ ]")) ≡ Equal }
    ensures more { timeline_cmp (timeline (codes "[ | ]")) (timeline (codes "[ ]")) ≡ Greater }
{}

/// Candidates of the form `[ ]`, where the first tier is the input: the other tier is free, and may
/// begin before the input and end after it.
pub fn candidates_of_one()
    ensures nothing { IsCandidateOf (codes "[ ]") (codes "[- ]-") }
    ensures whole { IsCandidateOf (codes "[ ]") (codes "[[ ]]") }
    ensures around { IsCandidateOf (codes "[ ]") (codes "-[ [| +| ]+ -]") }
{}

/// Timelines that are not candidates of it: another input part, a column without an edge, a tier
/// that is not well formed, and a column that is too wide.
pub fn no_candidates_of_one()
    ensures other_input { IsCandidateOf (codes "[ ]") (codes "[[ |+ ]]") → ⊥ }
    ensures no_input { IsCandidateOf (codes "[ ]") (codes "-[ -]") → ⊥ }
    ensures not_reduced { IsCandidateOf (codes "[ ]") (codes "[- +- ]-") → ⊥ }
    ensures not_well_formed { IsCandidateOf (codes "[ ]") (codes "[- ][") → ⊥ }
    ensures too_wide { IsCandidateOf (codes "[ ]") (codes "[-- ]--") → ⊥ }
{}

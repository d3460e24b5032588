//! What constraints count, on small timelines.
ghost use Rattle.std.specs.Prelude.{◌≡◌, [], codes};
ghost use Rattle.tier_core.specs.declared.constraint.Family.TheVariants.{Implication};
ghost use Rattle.violation.specs.Counts.{viol};
ghost use Rattle.violation.specs.Examples.{types, misses, clashes};

/// `A -> a` counts 1 on `[- ]-`. On `[[ |] ]-` it counts 1, since the second A has no a beside it,
/// and `a # a` counts 1. `A -> [a` counts 1 on `[[ ]]`, where the start of a is not inside A.
/// `]a and [a # A` counts 1 on `[[ +| ]]`, where one a ends and the next starts inside A.
pub fn worked_counts()
    ensures unparsed { misses (codes "Aa") (codes "A") (codes "a") (codes "[- ]-") ≡ 1 }
    ensures second { misses (codes "Aa") (codes "A") (codes "a") (codes "[[ |] ]-") ≡ 1 }
    ensures one { clashes (codes "Aa") (codes "a") (codes "a") (codes "[[ |] ]-") ≡ 1 }
    ensures own_start { misses (codes "Aa") (codes "A") (codes "[a") (codes "[[ ]]") ≡ 1 }
    ensures inner { clashes (codes "Aa") (codes "]a [a") (codes "A") (codes "[[ +| ]]") ≡ 1 }
{}

/// Three candidates of the form `[ ]`, with the counts of `A -> a`, `a -> A` and `a # a`: 0, 0 and
/// 1 for `[[ ]]`, 1, 0 and 0 for `[- ]-`, and 0, 1 and 2 for `-[ [| ]]`.
pub fn tableau_rows()
    ensures whole_max { misses (codes "Aa") (codes "A") (codes "a") (codes "[[ ]]") ≡ 0 }
    ensures whole_dep { misses (codes "Aa") (codes "a") (codes "A") (codes "[[ ]]") ≡ 0 }
    ensures whole_one { clashes (codes "Aa") (codes "a") (codes "a") (codes "[[ ]]") ≡ 1 }
    ensures none_max { misses (codes "Aa") (codes "A") (codes "a") (codes "[- ]-") ≡ 1 }
    ensures none_dep { misses (codes "Aa") (codes "a") (codes "A") (codes "[- ]-") ≡ 0 }
    ensures none_one { clashes (codes "Aa") (codes "a") (codes "a") (codes "[- ]-") ≡ 0 }
    ensures two_max { misses (codes "Aa") (codes "A") (codes "a") (codes "-[ [| ]]") ≡ 0 }
    ensures two_dep { misses (codes "Aa") (codes "a") (codes "A") (codes "-[ [| ]]") ≡ 1 }
    ensures two_one { clashes (codes "Aa") (codes "a") (codes "a") (codes "-[ [| ]]") ≡ 2 }
{}

/// A consonant alone in a syllable, `[-[-[ ]-]-]`, with the tiers C, V, c, v and S: it is parsed
/// and has an onset, and ends no vowel, so that only `]S -> ]v` counts 1.
pub fn syllable()
    ensures max_left { misses (codes "CVcvS") (codes "[C") (codes "[c") (codes "[-[-[ ]-]-]") ≡ 0 }
    ensures parse { misses (codes "CVcvS") (codes "c") (codes "S") (codes "[-[-[ ]-]-]") ≡ 0 }
    ensures onset { misses (codes "CVcvS") (codes "[S") (codes "[c") (codes "[-[-[ ]-]-]") ≡ 0 }
    ensures coda { misses (codes "CVcvS") (codes "]S") (codes "]v") (codes "[-[-[ ]-]-]") ≡ 1 }
    ensures inner { clashes (codes "CVcvS") (codes "]v") (codes "S") (codes "[-[-[ ]-]-]") ≡ 0 }
{}

/// Two constituents that share the edge `|`: each meets itself alone, and one ends where the next
/// starts. In `[ ] [ ]` they do not touch.
pub fn shared_edges()
    ensures each_itself { clashes (codes "a") (codes "a") (codes "a") (codes "[ | ]") ≡ 2 }
    ensures touching { clashes (codes "a") (codes "]a") (codes "[a") (codes "[ | ]") ≡ 1 }
    ensures apart { clashes (codes "a") (codes "]a") (codes "[a") (codes "[ ] [ ]") ≡ 0 }
    ensures last_end { misses (codes "a") (codes "]a") (codes "[a") (codes "[ | ]") ≡ 1 }
{}

/// An edge meets an interior only strictly between its ends: an edge at the start or at the end of
/// the other's constituent does not.
pub fn edges_and_interiors()
    ensures start_at_start { clashes (codes "ab") (codes "a") (codes "[b") (codes "[[ ++ ]]") ≡ 0 }
    ensures start_inside { clashes (codes "ab") (codes "a") (codes "[b") (codes "[- +[ ]]") ≡ 1 }
    ensures end_inside { clashes (codes "ab") (codes "a") (codes "]b") (codes "[[ +] ]-") ≡ 1 }
    ensures end_at_end { clashes (codes "ab") (codes "a") (codes "]b") (codes "[[ ++ ]]") ≡ 0 }
    ensures missing_end { misses (codes "ab") (codes "a") (codes "]b") (codes "[[ ++ ]]") ≡ 1 }
    ensures present_end { misses (codes "ab") (codes "a") (codes "]b") (codes "[[ +] ]-") ≡ 0 }
    ensures missing_start { misses (codes "ab") (codes "a") (codes "[b") (codes "[[ ++ ]]") ≡ 1 }
    ensures each_end { clashes (codes "ab") (codes "]a") (codes "b") (codes "[[ |+ ]]") ≡ 1 }
{}

/// Interiors with no column inside still meet, between the columns: `[[ ]]` has one meet, and so
/// has the second a of `[- |[ ]]`. In `[- ][ -]` a ends where b starts, and their interiors do not
/// meet.
pub fn narrow_interiors()
    ensures side_by_side { clashes (codes "ab") (codes "a") (codes "b") (codes "[[ ]]") ≡ 1 }
    ensures second { clashes (codes "ab") (codes "a") (codes "b") (codes "[- |[ ]]") ≡ 1 }
    ensures in_turn { clashes (codes "ab") (codes "a") (codes "b") (codes "[- ][ -]") ≡ 0 }
    ensures unmet { misses (codes "ab") (codes "a") (codes "b") (codes "[- ][ -]") ≡ 1 }
{}

/// Types joined by `and` must all meet at once. In `[[- +][ ]-]` a meets b, and later c, but the
/// three never meet together.
pub fn three_tiers()
    ensures together { clashes (codes "abc") (codes "a b") (codes "c") (codes "[[[ ]]]") ≡ 1 }
    ensures never_together { clashes (codes "abc") (codes "a b") (codes "c") (codes "[[- +][ ]-]")
        ≡ 0 }
    ensures met_too_late { misses (codes "abc") (codes "a b") (codes "c") (codes "[[- +][ ]-]")
        ≡ 1 }
    ensures met_later { misses (codes "abc") (codes "a b") (codes "c") (codes "[[- ++[ ]]]") ≡ 0 }
    ensures starts_together { clashes (codes "abc")
        (codes "[a [b") (codes "[c") (codes "[[[ ]]]") ≡ 1 }
    ensures starts_apart { clashes (codes "abc")
        (codes "[a [b") (codes "[c") (codes "[[- ++[ ]]]") ≡ 0 }
    ensures three_left { misses (codes "abcd") (codes "a b c") (codes "d") (codes "[[[- ]]]-")
        ≡ 1 }
    ensures four { misses (codes "abcd") (codes "a b c") (codes "d") (codes "[[[[ ]]]]") ≡ 0 }
{}

/// Repeating a type changes no count.
pub fn repeated_types()
    ensures once { clashes (codes "ab") (codes "a") (codes "b") (codes "[[ |+ ]]") ≡ 2 }
    ensures twice { clashes (codes "ab") (codes "a a") (codes "b") (codes "[[ |+ ]]") ≡ 2 }
    ensures start_twice { clashes (codes "ab") (codes "[a [a") (codes "[b") (codes "[[ ]]") ≡ 1 }
    ensures left_twice { misses (codes "ab") (codes "a a") (codes "b") (codes "[- |- ]-") ≡ 2 }
{}

/// A clash of interiors counts each pair that overlaps once, however many columns they share.
pub fn overlaps()
    ensures long { clashes (codes "ab") (codes "a") (codes "b") (codes "[[ ++ ++ ]]") ≡ 1 }
    ensures one_over_two { clashes (codes "ab") (codes "a") (codes "b") (codes "[[ +| ]]") ≡ 2 }
    ensures chain { clashes (codes "ab") (codes "a") (codes "b") (codes "[[ |+ +| ]]") ≡ 3 }
{}

/// A meet of the left types is violated if no right type meets it, and counts once, however many
/// right events it misses. In `[-[ |[] ]]-` the first a is beside c and the second beside b.
pub fn right_types()
    ensures either { misses (codes "abc") (codes "a") (codes "b c") (codes "[-[ |[] ]]-") ≡ 0 }
    ensures first_alone { misses (codes "abc") (codes "a") (codes "b") (codes "[-[ |[] ]]-") ≡ 1 }
    ensures second_alone { misses (codes "abc") (codes "a") (codes "c") (codes "[-[ |[] ]]-") ≡ 1 }
    ensures only_edges { misses (codes "abc") (codes "a") (codes "[b ]c") (codes "[-[ |[] ]]-")
        ≡ 2 }
    ensures two_missed { misses (codes "ab") (codes "a") (codes "b") (codes "[- ]- -[ -| -]") ≡ 1 }
{}

/// An edge on the left is a point: it requires an event at its own column.
pub fn left_edges()
    ensures with_start { misses (codes "ab") (codes "[a") (codes "[b") (codes "[[ ]]") ≡ 0 }
    ensures without_start { misses (codes "ab") (codes "[a") (codes "[b") (codes "[- +[ ]]") ≡ 1 }
    ensures edge_at_end { misses (codes "ab") (codes "]a") (codes "]b [b") (codes "[- ][ -]") ≡ 0 }
    ensures interior_later { misses (codes "ab") (codes "]a") (codes "b") (codes "[- ][ -]") ≡ 1 }
    ensures interior_over { misses (codes "ab") (codes "]a") (codes "b") (codes "[[ ]+ -]") ≡ 0 }
    ensures interior_starts { misses (codes "abc")
        (codes "[a [b") (codes "c") (codes "[[[ ]]]") ≡ 1 }
    ensures interior_before { misses (codes "abc")
        (codes "[a [b") (codes "c") (codes "--[ [[+ ]]]") ≡ 0 }
{}

/// A tier without constituents has no events, so nothing is chosen from it, and nothing is met by
/// it.
pub fn no_constituents()
    ensures left_none { misses (codes "ab") (codes "a") (codes "b") (codes "-[ -]") ≡ 0 }
    ensures clash_none { clashes (codes "ab") (codes "a") (codes "b") (codes "-[ -]") ≡ 0 }
    ensures right_none { misses (codes "ab") (codes "b") (codes "a") (codes "-[ -]") ≡ 1 }
    ensures no_columns { viol Implication (types (codes "ab") (codes "a"))
        (types (codes "ab") (codes "b")) [] ≡ 0 }
{}

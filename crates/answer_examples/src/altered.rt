//! Alterations of the answer to `[ ]` under `a # a`, `A -> a` and `a -> A` that are not certified.
ghost use Rattle.std.specs.Prelude.{true, false, [], ◌∷◌, drop, codes};
ghost use Rattle.violation.specs.Examples.{timeline, read_kind};
ghost use Rattle.answer_examples.specs.Worked.{arc_by, arc_on, state};
ghost use Rattle.answer_examples.specs.Ranked.{only_optimal, least_counts, six_nodes, node_at};
ghost use Rattle.answer_examples.specs.Ranked.{nodes_of_max, nodes_of_dep, first_arcs, second_arcs};
ghost use Rattle.answer_examples.specs.Ranked.{states_with, with_potential, with_kind, without};
ghost use Rattle.answer_examples.specs.Ranked.{IsFormRefused, IsHeadRefused, AreStagesRefused};
ghost use Rattle.answer_examples.specs.Ranked.{IsStageRefused, AreStatesRefused};

/// With another form or what is no form, with other counts, with an example of another form or with
/// other counts, or without its last stage or with one more, the answer is not certified.
pub fn altered_heads_are_refused()
    ensures another_form { IsFormRefused [] }
    ensures no_form { IsFormRefused (timeline (codes "]")) }
    ensures first_count { IsHeadRefused (1 ∷ 1 ∷ 0 ∷ []) only_optimal }
    ensures second_count { IsHeadRefused (0 ∷ 0 ∷ 0 ∷ []) only_optimal }
    ensures last_count { IsHeadRefused (0 ∷ 1 ∷ 1 ∷ []) only_optimal }
    ensures two_counts { IsHeadRefused (0 ∷ 2 ∷ 2 ∷ []) only_optimal }
    ensures greatest_count { IsHeadRefused (0 ∷ 1000000000 ∷ 0 ∷ []) only_optimal }
    ensures example_of_another_form { IsHeadRefused least_counts [] }
    ensures example_with_an_a { IsHeadRefused least_counts (timeline (codes "[[ ]]")) }
    ensures no_last_stage { AreStagesRefused (six_nodes 0 ∷ six_nodes 1 ∷ nodes_of_max ∷ []) }
    ensures stage_added { AreStagesRefused (six_nodes 0 ∷ six_nodes 1 ∷ nodes_of_max
        ∷ nodes_of_dep ∷ nodes_of_dep ∷ []) }
{}

/// With a potential that is raised, or lowered at the start, with a phase that is not due, or with
/// a node taken out, twice or out of order, the answer is not certified.
pub fn altered_stages_are_refused()
    ensures potential_at_stage_zero { IsStageRefused 0 (with_potential (six_nodes 0) 1 1) }
    ensures final_at_stage_zero { IsStageRefused 0 (with_potential (six_nodes 0) 4 1) }
    ensures potential_raised { IsStageRefused 1 (with_potential (six_nodes 1) 1 2) }
    ensures final_raised { IsStageRefused 1 (with_potential (six_nodes 1) 4 1) }
    ensures start_lowered { IsStageRefused 2 (with_potential nodes_of_max 0 0) }
    ensures phase_not_due { IsStageRefused 2 (with_kind nodes_of_max 1
        (read_kind 1 (codes "-") (codes "."))) }
    ensures phase_at_a_shut_tier { IsStageRefused 2 (with_kind nodes_of_max 0
        (read_kind 0 (codes "-") (codes "u"))) }
    ensures node_taken_out { IsStageRefused 0 (without 5 (six_nodes 0)) }
    ensures cut_taken_out { IsStageRefused 0 (without 3 (six_nodes 0)) }
    ensures start_taken_out { IsStageRefused 0 (without 0 (six_nodes 0)) }
    ensures last_kind_taken_out { IsStageRefused 3 (without 2 nodes_of_dep) }
    ensures node_twice { IsStageRefused 2 (node_at 0 (codes "-") (codes ".") 1 ∷ nodes_of_max) }
    ensures nodes_exchanged { IsStageRefused 0 (node_at 0 (codes "+") [] 0
        ∷ node_at 0 (codes "-") [] 0 ∷ drop 2 (six_nodes 0)) }
{}

/// With a state or a final mark taken out or added, or with an arc that is taken out, added, or has
/// another target or further columns, the answer is not certified.
pub fn altered_automata_are_refused()
    ensures last_state_taken_out { AreStatesRefused (state 0 false first_arcs
        ∷ state 1 false second_arcs ∷ []) }
    ensures start_taken_out { AreStatesRefused (state 1 false second_arcs
        ∷ state 2 true [] ∷ []) }
    ensures mark_taken_out { AreStatesRefused (states_with false first_arcs false second_arcs
        false []) }
    ensures mark_added { AreStatesRefused (states_with false first_arcs true second_arcs true []) }
    ensures start_marked { AreStatesRefused (states_with true first_arcs false second_arcs
        true []) }
    ensures column_in_two_arcs { AreStatesRefused (states_with false
        (arc_on 1 (codes "[-") ∷ arc_on 2 (codes "[-") ∷ []) false second_arcs true []) }
    ensures another_target { AreStatesRefused (states_with false (arc_on 2 (codes "[-") ∷ []) false
        second_arcs true []) }
    ensures arc_taken_out { AreStatesRefused (states_with false first_arcs false [] true []) }
    ensures arc_added { AreStatesRefused (states_with false first_arcs false second_arcs true
        (arc_on 2 (codes "-[") ∷ [])) }
    ensures arc_on_all_columns { AreStatesRefused (states_with false
        (arc_by 1 (31 ∷ 31 ∷ []) ∷ []) false second_arcs true []) }
    ensures edge_added { AreStatesRefused (states_with false
        (arc_by 1 (20 ∷ 1 ∷ []) ∷ []) false second_arcs true []) }
{}

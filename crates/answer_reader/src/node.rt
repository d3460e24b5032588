ghost use Rattle.std.specs.Prelude.{◌≡◌, ◌==◌, ◌<◌, ◌≤◌, ◌^◌, length, map, option_map, true, MatchResult, IfOk, IfSome, Ok, Err};
ghost use Rattle.std.specs.List.{list_all};
ghost use Rattle.tier_core.specs.Kinds.{AreStretchesBelow, open_tiers, phases};
ghost use Rattle.tier_core.specs.KindShapes.{free_count, stretch_count};
ghost use Rattle.answer_reader.specs.Nodes.{are_each, are_node_words, is_open_byte, is_phase_byte, node_of, node_with, node_words, phase_of_byte};
ghost use Rattle.answer_reader.specs.Numbers.{is_run};
ghost use Rattle.answer_reader.specs.Seen.{node_seen, words_seen};
ghost use Rattle.answer_text.specs.Values.{node_value};
ghost use Rattle.answer_reader.specs.Within.{IsNodeWithin};

use crate::answer_err::AnswerCause;
use crate::cut::{behind, cut};
use crate::mask::mask_of;
use crate::number::{is_run, number_below};
use answer_text::{Node, free_count};
use tier_core::{Kind, Shape};

/// The words of a node's line.
#[derive(Clone, Copy)]
pub(crate) struct NodeWords<'a> {
    pub place: &'a [u8],
    pub opened: &'a [u8],
    pub phases: &'a [u8],
    pub potential: &'a [u8],
}

fn node_words(line: &[u8]) -> Option<NodeWords<'_>>
    ensures { option_map words_seen result ≡ node_words line.entry.now }
{
    let kind = behind(b"node ", line)?;
    let (place, rest) = cut(b'/', kind)?;
    let (opened, rest) = cut(b'/', rest)?;
    let (phases, potential) = cut(b' ', rest)?;
    Some(NodeWords {
        place,
        opened,
        phases,
        potential,
    })
}

fn have_open_bytes(bytes: &[u8]) -> bool
    ensures { result ≡ list_all is_open_byte bytes.now }
{
    bytes.iter().all(|byte| *byte == b'+' || *byte == b'-')
}

fn are_open_bytes(count: usize, bytes: &[u8]) -> bool
    ensures { result ≡ are_each is_open_byte count bytes.now }
{
    bytes.len() == count && have_open_bytes(bytes)
}

fn have_phase_bytes(bytes: &[u8]) -> bool
    ensures { result ≡ list_all is_phase_byte bytes.now }
{
    bytes
        .iter()
        .all(|byte| *byte == b'.' || *byte == b'u' || *byte == b'm')
}

fn are_phase_bytes(count: usize, bytes: &[u8]) -> bool
    ensures { result ≡ are_each is_phase_byte count bytes.now }
{
    bytes.len() == count && have_phase_bytes(bytes)
}

/// Whether PLACE and POTENTIAL are runs of digits, and OPEN and PHASES have these widths.
fn are_node_words(free: usize, stretches: usize, words: &NodeWords<'_>) -> bool
    ensures { result ≡ are_node_words free stretches (words_seen words.now) }
{
    is_run(words.place)
        && are_open_bytes(free, words.opened)
        && are_phase_bytes(stretches, words.phases)
        && is_run(words.potential)
}

/// The kind given by the texts of its open tiers and its phases.
fn kind_of(place: u32, open_text: &[u8], phase_text: &[u8]) -> Kind
    requires few_free { length open_text.now ≤ 12 }
    requires few_stretches { length phase_text.now ≤ 24 }
    ensures place { result.place ≡ place }
    ensures opened { open_tiers (length open_text.now) result.opened
        ≡ map (λ b. b == 43) open_text.now }
    ensures phases { phases (length phase_text.now) result ≡ map phase_of_byte phase_text.now }
    ensures free { result.opened < 2 ^ length open_text.now }
    ensures stretches { AreStretchesBelow (length phase_text.now) result }
{
    Kind {
        place,
        opened: mask_of(b'+', open_text) as u16,
        unmet: mask_of(b'u', phase_text),
        met: mask_of(b'm', phase_text),
    }
}

/// The node given by well-formed words. None if a number is out of its range.
fn node_with(columns: u32, words: &NodeWords<'_>) -> Option<Node>
    requires columns { columns ≤ 64 }
    requires place { is_run words.now.place.now ≡ true }
    requires potential { is_run words.now.potential.now ≡ true }
    requires few_free { length words.now.opened.now ≤ 12 }
    requires few_stretches { length words.now.phases.now ≤ 24 }
    ensures node { option_map (node_seen (length words.now.opened.now)
        (length words.now.phases.now)) result ≡ node_with columns (words_seen words.now) }
    ensures place { IfSome result (λ node. node.kind.place ≤ columns) }
    ensures potential { IfSome result (λ node. node.potential ≤ 1000000000) }
    ensures free { IfSome result (λ node. node.kind.opened < 2 ^ length words.now.opened.now) }
    ensures stretches { IfSome result
        (λ node. AreStretchesBelow (length words.now.phases.now) node.kind) }
{
    let place = number_below(columns + 1, words.place)?;
    let potential = number_below(1_000_000_001, words.potential)?;
    let kind = kind_of(place, words.opened, words.phases);
    Some(Node { kind, potential })
}

/// The node on a line, for a stage of the shape and a form with this many columns.
pub(crate) fn node_of(
    shape: &Shape,
    columns: u32,
    stage: u32,
    line: &[u8],
) -> Result<Node, AnswerCause>
    requires columns { columns ≤ 64 }
    requires stage { stage < length shape.now.phases.items }
    ensures said { MatchResult result
        (λ node. node_of (free_count shape.now) (stretch_count shape.now stage) columns line.now
        ≡ Ok (node_value shape.now stage node))
        (λ cause. node_of (free_count shape.now) (stretch_count shape.now stage) columns line.now
        ≡ Err cause) }
    ensures within { IfOk result (IsNodeWithin shape.now columns stage) }
{
    let Some(words) = node_words(line) else {
        return Err(AnswerCause::BadLine);
    };
    let stretches = shape.phases[stage as usize] as usize;
    if !are_node_words(free_count(shape), stretches, &words) {
        return Err(AnswerCause::BadLine);
    }
    match node_with(columns, &words) {
        Some(node) => Ok(node),
        None => Err(AnswerCause::BadNumber),
    }
}

ghost use Rattle.std.specs.Prelude.{◌≡◌, ◌<◌, ◌≤◌, ◌∷◌, [], IfOk, length};
ghost use Rattle.std.specs.List.{list_any};
ghost use Rattle.tier_core.specs.Events.{events, is_there, meet};
ghost use Rattle.violation.specs.Conditions.{IsCountable};
ghost use Rattle.violation.specs.Counts.{choice_types, is_met, violations_of};
ghost use Rattle.definition_tests.specs.Counting.{HasTier, HasTiersOf, counted_after, counts_meet};
ghost use Rattle.definition_tests.specs.Spans.{interval, intervals_of};

use crate::events::events_of;
use crate::span::Span;
use std::alloc::Global;
use tier_core::{Column, Constraint, Event, Family, NoMemory, Timeline};

/// The meet of no events.
const NOTHING: Span = Span { low: 0, high: 0 };

/// Whether an event of a type has a meet with a span.
fn is_met_by(alloc: Global, columns: &[Column], event: Event, met: Span) -> Result<bool, NoMemory>
    requires tier { HasTier columns.now event.tier }
    requires short { length columns.now ≤ 65536 }
    ensures { IfOk result
        (λ found.
        found
        ≡ list_any (λ x. is_there (meet (interval met ∷ x ∷ []))) (events columns.now event)) }
{
    let spans = events_of(alloc, columns, event)?;
    Ok(met.meets_some(&spans))
}

/// Whether an event of one of the types has a meet with a span.
fn is_met(alloc: Global, columns: &[Column], types: &[Event], met: Span) -> Result<bool, NoMemory>
    requires tiers { HasTiersOf columns.now types.now }
    requires short { length columns.now ≤ 65536 }
    ensures { IfOk result (λ found. found ≡ is_met columns.now types.now (interval met)) }
{
    for event in types {
        if is_met_by(alloc, columns, *event, met)? {
            return Ok(true);
        }
    }
    Ok(false)
}

/// Whether a choice with this meet is counted.
fn is_counted(
    alloc: Global,
    columns: &[Column],
    family: Family,
    right: &[Event],
    met: Span,
) -> Result<bool, NoMemory>
    requires tiers { HasTiersOf columns.now right.now }
    requires short { length columns.now ≤ 65536 }
    ensures { IfOk result
        (λ counted. counted ≡ counts_meet family right.now columns.now (interval met)) }
{
    match family {
        Family::Clash => Ok(met.is_there()),
        Family::Implication => Ok(met.is_there() && !is_met(alloc, columns, right, met)?),
    }
}

/// Counts the choices of one event of each type that go on from what was chosen so far.
fn counted_from(
    alloc: Global,
    columns: &[Column],
    family: Family,
    right: &[Event],
    chosen: Option<Span>,
    types: &[Event],
) -> Result<u64, NoMemory>
    requires right { HasTiersOf columns.now right.now }
    requires tiers { HasTiersOf columns.now types.now }
    requires short { length columns.now ≤ 8 }
    requires few { length types.now ≤ 16 }
    ensures { IfOk result
        (λ count.
        count ≡ counted_after family right.now columns.now (intervals_of chosen) types.now) }
{
    let Some((first, others)) = types.split_first() else {
        let met = chosen.unwrap_or(NOTHING);
        return Ok(u64::from(is_counted(alloc, columns, family, right, met)?));
    };
    let spans = events_of(alloc, columns, *first)?;
    let mut count = 0;
    for span in &spans {
        let met = Some(span.joined(chosen));
        count += counted_from(alloc, columns, family, right, met, others)?;
    }
    Ok(count)
}

/// The types of which a choice has one event each: those of both sides of a clash, those of the
/// left side of an implication.
fn chosen_types(alloc: Global, constraint: &Constraint) -> Result<Vec<Event>, NoMemory>
    ensures types { IfOk result
        (λ types.
        types.items ≡ choice_types constraint.now.family constraint.now.left constraint.now.right) }
    ensures few { IfOk result (λ types. length types.items ≤ 16) }
{
    let mut types = constraint.left.as_slice().to_vec(alloc)?;
    if constraint.family == Family::Clash {
        types.extend_from_slice(constraint.right.as_slice())?;
    }
    Ok(types)
}

/// How many choices a constraint counts on a timeline of at most 8 columns, by the definition: each
/// choice is made and tried.
pub fn counted_by_choices(
    alloc: Global,
    constraint: &Constraint,
    timeline: &Timeline,
) -> Result<u64, NoMemory>
    requires countable { IsCountable constraint.now.left constraint.now.right timeline.now }
    requires short { length timeline.now ≤ 8 }
    ensures { IfOk result (λ count. count ≡ violations_of constraint.now timeline.now) }
{
    let types = chosen_types(alloc, constraint)?;
    counted_from(
        alloc,
        timeline.columns(),
        constraint.family,
        constraint.right.as_slice(),
        None,
        &types,
    )
}

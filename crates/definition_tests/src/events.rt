ghost use Rattle.std.specs.Prelude.{◌≡◌, ◌+◌, ◌<◌, ◌≤◌, ◌++◌, ◌∷◌, [], IfOk, OnOk, IfSome, length, map, drop};
ghost use Rattle.tier_core.specs.Events.{events};
ghost use Rattle.tier_core.specs.Timelines.{tier_word};
ghost use Rattle.tier_core.specs.Words.{ends, next_end, starts};
ghost use Rattle.definition_tests.specs.Counting.{HasTier};
ghost use Rattle.definition_tests.specs.Spans.{interval};

use crate::span::Span;
use std::alloc::Global;
use tier_core::{Column, Event, NoMemory, Sym};

fn starts(sym: Sym) -> bool
    ensures { result ≡ starts sym }
{
    matches!(sym, Sym::Start | Sym::Both)
}

fn ends(sym: Sym) -> bool
    ensures { result ≡ ends sym }
{
    matches!(sym, Sym::End | Sym::Both)
}

/// The first place from one on at which a constituent of the tier ends.
fn next_end(columns: &[Column], tier: u32, from: usize) -> Option<usize>
    requires tier { HasTier columns.now tier }
    requires from { from ≤ length columns.now }
    ensures value { result ≡ next_end from (tier_word (drop from columns.now) tier) }
    ensures late { IfSome result (λ place. from ≤ place) }
    ensures within { IfSome result (λ place. place < length columns.now) }
{
    for place in from..columns.len() {
        if ends(columns[place].sym(tier)) {
            return Some(place);
        }
    }
    None
}

/// Adds a span at the end.
fn add(spans: &mut Vec<Span>, span: Span) -> Result<(), NoMemory>
    ensures { OnOk result (spans.new.items ≡ spans.old.items ++ (span ∷ [])) }
{
    spans.push(span).map_err(|_| NoMemory)
}

/// The events of a type: a part of each constituent of the tier.
pub(crate) fn events_of(
    alloc: Global,
    columns: &[Column],
    event: Event,
) -> Result<Vec<Span>, NoMemory>
    requires tier { HasTier columns.now event.tier }
    requires short { length columns.now ≤ 65536 }
    ensures { IfOk result (λ spans. map interval spans.items ≡ events columns.now event) }
{
    let mut spans = Vec::new(alloc);
    for place in 0..columns.len() {
        if !starts(columns[place].sym(event.tier)) {
            continue;
        }
        let Some(end) = next_end(columns, event.tier, place + 1) else {
            continue;
        };
        let span = Span::of_part(event.part, place as u32, end as u32);
        add(&mut spans, span)?;
    }
    Ok(spans)
}

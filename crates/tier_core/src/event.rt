ghost use Rattle.std.specs.Prelude.{◌≡◌, ◌<◌, ◌≤◌, length, All};
ghost use Rattle.tier_core.specs.Sides.{has_edge_type};

use smallvec::SmallVec;
use std::alloc::Global;
use std::marker::Model;

/// Which part of a constituent an event is.
#[derive(Clone, Copy, Debug, Default, PartialEq, Eq)]
pub enum Part {
    /// Where it starts, written `[` and the tier.
    Start,
    /// Where it ends, written `]` and the tier.
    End,
    /// What lies between its edges, written as the tier alone.
    #[default]
    Interior,
}

impl Part {
    ghost use Rattle.tier_core.specs.Sides.{is_edge_part};

    /// Whether it is an edge: a start or an end.
    pub fn is_edge(self) -> bool
        ensures { result ≡ is_edge_part self }
    {
        matches!(self, Part::Start | Part::End)
    }
}

/// A type of events: a part of the constituents of one tier, which is counted from 0.
#[derive(Clone, Copy, Debug, Default, PartialEq, Eq)]
pub struct Event {
    pub tier: u32,
    pub part: Part,
}

/// One side of a constraint: from 1 to 8 types of events, on tiers below 12.
///
/// Contracts see it as the list of its types. It owns no memory.
#[derive(Drop)]
pub struct EventList {
    events: SmallVec<Event, 8>,
}

impl Model for EventList {
    ghost use Rattle.std.specs.Prelude.{List};
    ghost use Rattle.tier_core.specs.declared.event.Event.{Event};

    ghost Value = { List Event };

    ghost view = { λ e. e.events.items };

    ghost use Rattle.std.specs.Prelude.{◌≤◌, ◌<◌, length, All};

    ghost invariant = { λ e. (1 ≤ length e.events.items) × (length e.events.items ≤ 8) × All (λ event. event.tier < 12) e.events.items };
}

impl EventList {
    /// The side with these types of events. They fit in the value, so no memory is allocated.
    pub fn from_events(alloc: Global, events: &[Event]) -> EventList
        requires some { 1 ≤ length events.now }
        requires few { length events.now ≤ 8 }
        requires tiers { All (λ event. event.tier < 12) events.now }
        ensures { result ≡ events.now }
    {
        match SmallVec::from_slice(alloc, events) {
            Ok(events) => EventList { events },
            Err(_) => unreachable!(),
        }
    }

    /// The types of events in their order.
    pub fn as_slice(&self) -> &[Event]
        ensures value { result.now ≡ self.now }
        ensures some { 1 ≤ length result.now }
        ensures few { length result.now ≤ 8 }
        ensures tiers { All (λ event. event.tier < 12) result.now }
    {
        self.events.as_slice()
    }
}

/// Whether one of the types of events is an edge.
pub fn has_edge_type(types: &[Event]) -> bool
    ensures { result ≡ has_edge_type types.now }
{
    types.iter().any(|event| event.part.is_edge())
}

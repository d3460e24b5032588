ghost use Rattle.std.specs.Prelude.{◌≡◌, ◌<◌, ◌≤◌, ◌++◌, ◌∷◌, [], map};
ghost use Rattle.std.specs.List.{list_any};
ghost use Rattle.tier_core.specs.Events.{event, is_there, meet};

use tier_core::Part;

/// An interval of doubled time: place k of a timeline is at 2k. Both ends belong to it.
#[derive(Clone, Copy, Debug, PartialEq, Eq)]
pub(crate) struct Span {
    pub low: u32,
    pub high: u32,
}

impl Span {
    ghost use Rattle.definition_tests.specs.Spans.{interval, intervals_of};

    /// The event that a part of the constituent from `start` to `end` is.
    pub(crate) fn of_part(part: Part, start: u32, end: u32) -> Span
        requires short { end < 65536 }
        requires forward { start < end }
        ensures { interval result ≡ event part (start, end) }
    {
        match part {
            Part::Start => Span {
                low: 2 * start,
                high: 2 * start,
            },
            Part::End => Span {
                low: 2 * end,
                high: 2 * end,
            },
            Part::Interior => Span {
                low: 2 * start + 1,
                high: 2 * end - 1,
            },
        }
    }

    /// The meet of what was chosen so far, which may be nothing, and one more event.
    pub(crate) fn joined(self, chosen: Option<Span>) -> Span
        ensures { interval result ≡ meet (intervals_of chosen ++ (interval self ∷ [])) }
    {
        match chosen {
            None => self,
            Some(met) => Span {
                low: met.low.max(self.low),
                high: met.high.min(self.high),
            },
        }
    }

    /// Whether there is a point in it.
    pub(crate) fn is_there(self) -> bool
        ensures { result ≡ is_there (interval self) }
    {
        self.low <= self.high
    }

    /// Whether it has a meet with a span.
    fn meets(self, other: Span) -> bool
        ensures { result ≡ is_there (meet (interval self ∷ interval other ∷ [])) }
    {
        other.joined(Some(self)).is_there()
    }

    /// Whether it has a meet with one of the spans.
    pub(crate) fn meets_some(self, spans: &[Span]) -> bool
        ensures { result
            ≡ list_any
            (λ span. is_there (meet (interval self ∷ interval span ∷ []))) spans.now }
    {
        spans.iter().any(|span| self.meets(*span))
    }
}

ghost use Rattle.std.specs.Prelude.{◌≡◌, ℕ, ◌<◌, ◌↔◌, IsTrue, length, MatchOption};
ghost use Rattle.std.specs.List.{AllByRecursion};
ghost use Rattle.tier_core.specs.Words.{IsWellFormedWord};
ghost use Rattle.tier_core.specs.Timelines.{tier_word};
ghost use Rattle.timeline_text.specs.Causes.{IsFirstIllFormed};

use tier_core::Timeline;

/// Whether a tier of the timeline is well formed.
fn is_well_formed_on(timeline: &Timeline, width: u32, tier: u32) -> bool
    requires one_width { AllByRecursion (λ column. length column ≡ width) timeline.now }
    requires there { tier < width }
    ensures { IsTrue result ↔ IsWellFormedWord (tier_word timeline.now tier) }
{
    let mut is_open = false;
    for column in timeline.columns() {
        let sym = column.sym(tier);
        if !sym.may_come(is_open) {
            return false;
        }
        is_open = sym.is_open_after();
    }
    !is_open
}

/// The first tier that is not well formed.
pub(crate) fn ill_formed(timeline: &Timeline, width: u32) -> Option<u32>
    requires { AllByRecursion (λ column. length column ≡ width) timeline.now }
    ensures { MatchOption result ((t : ℕ) → t < width → IsWellFormedWord (tier_word timeline.now t))
        (IsFirstIllFormed width timeline.now) }
{
    for tier in 0..width {
        if !is_well_formed_on(timeline, width, tier) {
            return Some(tier);
        }
    }
    None
}

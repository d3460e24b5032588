ghost use Rattle.std.specs.Prelude.{◌≡◌, bit_and};

/// The kind of a prefix of a candidate: what matters of it for how it goes on.
///
/// `place` is how many columns of the form have been read. `opened` has one bit for each free
/// tier, counted from 0 in tier order, which is set if a constituent has started and not ended.
/// `unmet` and `met` have one bit for each stretch implication, counted from 0 in ranked order: a
/// bit of `unmet` is set if the phase is unmet, one of `met` if it is met, and neither if it is
/// closed.
#[derive(Clone, Copy, Debug, PartialEq, Eq, Hash)]
pub struct Kind {
    pub place: u32,
    pub opened: u16,
    pub unmet: u32,
    pub met: u32,
    pub ghost apart: { bit_and unmet met ≡ 0 },
}

ghost use Rattle.std.specs.Prelude.{◌≡◌, IsTrue, refl};
ghost use Rattle.std.specs.Cmp.{partial_equiv_from_equiv, partial_order_from_agreeing_total};
ghost use Rattle.std.specs.Ordering.{eq_by_cmp, as_partial_cmp};
ghost use Rattle.std.proofs.lemmas.Cmp.{eq_by_cmp_equiv};
ghost use Rattle.distances.specs.Waiting.{waiting_cmp, waiting_total};

use std::cmp::Ordering;
use weight_law::Weight;

/// A state that waits in a heap with a weight. The smaller weight is the greater in order, so that
/// it is taken first.
#[derive(Drop)]
pub(crate) struct Waiting<W: Weight> {
    pub weight: W,
    pub state: u32,
    pub ghost lawful: { IsTrue (W.meaning.lawful weight) },
}

impl<W: Weight> PartialEq for Waiting<W> {
    ghost eq = { eq_by_cmp (waiting_cmp W.meaning (λ k. k.weight)) };

    ghost laws = { partial_equiv_from_equiv (eq_by_cmp_equiv (waiting_total W.laws (λ k. k.weight) (λ k. k.lawful))) };

    fn eq(&self, other: &Waiting<W>) -> bool {
        other.weight.compare(&self.weight).is_eq()
    }
}

impl<W: Weight> Eq for Waiting<W> {
    ghost laws = { eq_by_cmp_equiv (waiting_total W.laws (λ k. k.weight) (λ k. k.lawful)) };
}

impl<W: Weight> PartialOrd for Waiting<W> {
    ghost partial_cmp = { as_partial_cmp (waiting_cmp W.meaning (λ k. k.weight)) };

    ghost laws = { partial_order_from_agreeing_total (waiting_cmp W.meaning (λ k. k.weight)) (waiting_total W.laws (λ k. k.weight) (λ k. k.lawful)) (λ x y. refl) (λ x y. refl) };

    fn partial_cmp(&self, other: &Waiting<W>) -> Option<Ordering> {
        Some(self.cmp(other))
    }
}

impl<W: Weight> Ord for Waiting<W> {
    ghost cmp = { waiting_cmp W.meaning (λ k. k.weight) };

    ghost total = { waiting_total W.laws (λ k. k.weight) (λ k. k.lawful) };

    ghost matches_partial_cmp = { λ x y. refl };

    ghost matches_eq = { λ x y. refl };

    fn cmp(&self, other: &Waiting<W>) -> Ordering {
        other.weight.compare(&self.weight)
    }
}

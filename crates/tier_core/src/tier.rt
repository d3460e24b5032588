ghost use Rattle.std.specs.Prelude.{◌≡◌, ◌<◌, ◌≤◌, ◌^◌, ◌↔◌, ℕ, length, IsTrue};
ghost use Rattle.tier_core.specs.Tiers.{has_tier, is_free, is_input, is_overt, kind_at};

/// What a tier is for. Overt and hidden tiers are called free.
#[derive(Clone, Copy, Debug, PartialEq, Eq)]
pub enum TierKind {
    /// It holds the underlying form.
    Input,
    /// It is heard.
    Overt,
    /// It is neither given nor heard.
    Hidden,
}

impl TierKind {
    /// Whether tiers of this kind hold the underlying form.
    pub fn is_input(self) -> bool
        ensures { result ≡ is_input self }
    {
        matches!(self, TierKind::Input)
    }

    /// Whether tiers of this kind are heard.
    pub fn is_overt(self) -> bool
        ensures { result ≡ is_overt self }
    {
        matches!(self, TierKind::Overt)
    }

    /// Whether tiers of this kind are free: overt or hidden.
    pub fn is_free(self) -> bool
        ensures { result ≡ is_free self }
    {
        !self.is_input()
    }
}

/// The tiers of a grammar in their order, from 1 to 12: the name and the kind of each.
#[derive(Drop)]
pub struct TierTable {
    pub names: Vec<String>,
    pub kinds: Vec<TierKind>,
    pub ghost one_length: { length names.items ≡ length kinds.items },
    pub ghost some: { 1 ≤ length kinds.items },
    pub ghost few: { length kinds.items ≤ 12 },
}

/// Whether two kinds are the same.
fn is_same(a: TierKind, b: TierKind) -> bool
    ensures { IsTrue result ↔ (a ≡ b) }
{
    a == b
}

impl TierTable {
    ghost use Rattle.tier_core.specs.Tables.{tiers_of_table};

    /// How many tiers are input tiers.
    pub fn input_count(&self) -> usize
        ensures value { result ≡ length (tiers_of_table self.now).input }
        ensures few { result ≤ 12 }
    {
        self.kinds.iter().filter(|kind| kind.is_input()).count()
    }

    /// How many tiers are free: overt or hidden.
    pub fn free_count(&self) -> usize
        ensures value { result ≡ length (tiers_of_table self.now).free }
        ensures few { result ≤ 12 }
    {
        self.kinds.iter().filter(|kind| kind.is_free()).count()
    }

    /// The mask of the tiers of a kind: bit t, counted from the lowest, is set exactly if tier t
    /// has that kind.
    pub fn mask(&self, kind: TierKind) -> u16
        ensures within { result < 2 ^ length self.now.kinds.items }
        ensures bits { (t : ℕ) → t < length self.now.kinds.items → IsTrue (has_tier result t)
            ↔ (kind_at self.now.kinds.items t ≡ kind) }
    {
        let mut mask = 0u16;
        for (tier, each) in self.kinds.iter().enumerate() {
            if is_same(*each, kind) {
                mask |= 1 << tier;
            }
        }
        mask
    }
}

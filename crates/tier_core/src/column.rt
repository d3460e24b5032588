ghost use Rattle.std.specs.Prelude.{◌≡◌, ◌<◌, ◌≤◌, length};
ghost use Rattle.tier_core.specs.Timelines.{symbol};

use crate::sym::Sym;
use smallvec::SmallVec;
use std::alloc::Global;
use std::marker::Model;

/// One instant: a symbol for each tier, from 1 to 12 of them.
///
/// Contracts see it as the list of its symbols. It owns no memory.
#[derive(Drop)]
pub struct Column {
    symbols: SmallVec<Sym, 12>,
}

impl Model for Column {
    ghost use Rattle.std.specs.Prelude.{List};
    ghost use Rattle.tier_core.specs.declared.sym.Sym.{Sym};

    ghost Value = { List Sym };

    ghost view = { λ c. c.symbols.items };

    ghost use Rattle.std.specs.Prelude.{◌≤◌, length};

    ghost invariant = { λ c. (1 ≤ length c.symbols.items) × (length c.symbols.items ≤ 12) };
}

impl Column {
    /// The column of these symbols. They fit in the value, so no memory is allocated.
    pub fn from_syms(alloc: Global, syms: &[Sym]) -> Column
        requires some { 1 ≤ length syms.now }
        requires few { length syms.now ≤ 12 }
        ensures { result ≡ syms.now }
    {
        match SmallVec::from_slice(alloc, syms) {
            Ok(symbols) => Column { symbols },
            Err(_) => unreachable!(),
        }
    }

    /// The symbol of a tier, counted from 0.
    pub fn sym(&self, tier: u32) -> Sym
        requires { tier < length self.now }
        ensures { result ≡ symbol self.now tier }
    {
        self.symbols.as_slice()[tier as usize]
    }

    /// The symbols in tier order.
    pub fn syms(&self) -> &[Sym]
        ensures value { result.now ≡ self.now }
        ensures some { 1 ≤ length result.now }
        ensures few { length result.now ≤ 12 }
    {
        self.symbols.as_slice()
    }

    /// The number of tiers.
    pub fn width(&self) -> u32
        ensures value { result ≡ length self.now }
        ensures some { 1 ≤ result }
        ensures few { result ≤ 12 }
    {
        self.symbols.as_slice().len() as u32
    }

    /// A copy of the column. Allocates no memory.
    pub fn copy(&self, alloc: Global) -> Column
        ensures { result ≡ self.now }
    {
        match SmallVec::from_slice(alloc, self.symbols.as_slice()) {
            Ok(symbols) => Column { symbols },
            Err(_) => unreachable!(),
        }
    }
}

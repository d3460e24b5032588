ghost use Rattle.std.specs.Prelude.{◌≡◌, ◌<◌, ◌≤◌, ◌↔◌, List, length, IsTrue, slice_index_or, slice_set, map};
ghost use Rattle.std.specs.Ordering.{nat_cmp};
ghost use Rattle.std.specs.Cmp.Lexicographic.{slice_cmp};
ghost use Rattle.tier_core.specs.declared.sym.Sym.{Sym};
ghost use Rattle.tier_core.specs.ClassWords.{width_in, below_in};
ghost use Rattle.tier_core.specs.Sets.{AreSets, MeetAt, SomeEmpty, single_set, is_in};

use crate::class_word::{has_empty_in, set_in, with_set_in};
use crate::column::Column;
use crate::sym::Sym;
use std::cmp::Ordering;

/// A set of symbols for each tier, from 1 to 12 of them: the class of the columns whose symbol on
/// each tier is in that tier's set. It takes 8 bytes.
///
/// A set has a number, the sum of 1 for Outside, 2 for Inside, 4 for Start, 8 for End and 16 for
/// Both. Contracts see a class by the numbers of its sets in tier order.
#[derive(Clone, Copy, Debug, PartialEq, Eq)]
pub struct Class {
    word: u64,
    ghost some: { 1 ≤ width_in word },
    ghost few: { width_in word ≤ 12 },
    ghost rest: { below_in word (width_in word) ≡ width_in word },
}

/// The number of the set that has a symbol alone.
pub fn single_set(sym: Sym) -> u8
    ensures value { result ≡ single_set sym }
    ensures few { result < 32 }
{
    match sym {
        Sym::Outside => 1,
        Sym::Inside => 2,
        Sym::Start => 4,
        Sym::End => 8,
        Sym::Both => 16,
    }
}

/// Whether a symbol is in the set of a number.
fn is_in(set: u8, sym: Sym) -> bool
    ensures { result ≡ is_in set sym }
{
    let place = match sym {
        Sym::Outside => 0,
        Sym::Inside => 1,
        Sym::Start => 2,
        Sym::End => 3,
        Sym::Both => 4,
    };
    (set >> place) & 1 == 1
}

impl Class {
    ghost use Rattle.tier_core.specs.Classes.{sets_of, has};

    /// The class of one column alone.
    pub fn single(column: &Column) -> Class
        ensures sets { sets_of result ≡ map single_set column.now }
        ensures alone { (other : List Sym) → IsTrue (has result other) ↔ (other ≡ column.now) }
    {
        let mut word = u64::from(column.width());
        for (tier, sym) in column.syms().iter().enumerate() {
            word = with_set_in(word, tier as u32, single_set(*sym));
        }
        Class { word }
    }

    /// The class of the columns whose symbol on each tier is in the set of that tier's number. There
    /// are from 1 to 12 numbers, each below 32.
    pub fn of_bits(bits: &[u8]) -> Class
        requires some { 1 ≤ length bits.now }
        requires few { length bits.now ≤ 12 }
        requires sets { AreSets bits.now }
        ensures { sets_of result ≡ bits.now }
    {
        let mut word = bits.len() as u64;
        for (tier, set) in bits.iter().enumerate() {
            word = with_set_in(word, tier as u32, *set);
        }
        Class { word }
    }

    /// Whether the column is in the class: it has as many tiers, and its symbol on each is in that
    /// tier's set.
    pub fn has(&self, column: &Column) -> bool
        ensures { result ≡ has self.now column.now }
    {
        if column.width() != self.width() {
            return false;
        }
        for (tier, sym) in column.syms().iter().enumerate() {
            if !is_in(self.bits(tier as u32), *sym) {
                return false;
            }
        }
        true
    }

    /// The number of a tier's set, which is below 32. Tiers are counted from 0.
    pub fn bits(&self, tier: u32) -> u8
        requires { tier < length (sets_of self.now) }
        ensures value { result ≡ slice_index_or (sets_of self.now) tier 0 }
        ensures set { result < 32 }
    {
        set_in(self.word, tier)
    }

    /// The number of tiers.
    pub fn width(&self) -> u32
        ensures value { result ≡ length (sets_of self.now) }
        ensures some { 1 ≤ result }
        ensures few { result ≤ 12 }
    {
        (self.word & 15) as u32
    }

    /// The class with another set on one tier, if it has this tier. The set's number is below 32.
    pub fn with_set(&self, tier: u32, set: u8) -> Class
        requires { set < 32 }
        ensures { sets_of result ≡ slice_set (sets_of self.now) tier set }
    {
        if self.width() <= tier {
            return *self;
        }
        Class {
            word: with_set_in(self.word, tier, set),
        }
    }

    /// The class whose sets have the symbols that are in both classes' sets. They have one width.
    pub fn meet(&self, other: &Class) -> Class
        requires { length (sets_of self.now) ≡ length (sets_of other.now) }
        ensures width { length (sets_of result) ≡ length (sets_of self.now) }
        ensures sets { MeetAt (sets_of self.now) (sets_of other.now) (sets_of result) }
    {
        Class {
            word: self.word & other.word,
        }
    }

    /// Whether the set of some tier has no symbol.
    pub fn has_empty_set(&self) -> bool
        ensures { IsTrue result ↔ SomeEmpty (sets_of self.now) }
    {
        has_empty_in(self.word, self.width())
    }

    /// Compares the numbers of the sets, from the first tier. Where one class has more tiers and none
    /// before them differs, it comes after the other.
    pub fn sets_cmp(&self, other: &Class) -> Ordering
        ensures { result ≡ slice_cmp nat_cmp (sets_of self.now) (sets_of other.now) }
    {
        let (first, second) = (self.word, other.word);
        first.cmp(&second)
    }
}

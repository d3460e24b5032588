ghost use Rattle.std.specs.Prelude.{◌≡◌, ◌≤◌, ◌^◌, ◌++◌, ◌&&◌, not, List, map, length, OnOk};
ghost use Rattle.tier_core.specs.declared.sym.Sym.{Sym};
ghost use Rattle.tier_core.specs.Classes.{sets_of, has};
ghost use Rattle.symbol_class.specs.Held.{once_if};
ghost use Rattle.kind_moves.specs.Leaving.{led_to, AddsLed};

use crate::fit_boxes::{edgeless, following, without_input};
use crate::frame::Frame;
use crate::leaving::columns_opening;
use crate::piece::Piece;
use std::alloc::Global;
use symbol_class::{is_empty, meet, minus};
use tier_core::{Class, Kind, NoMemory};

/// Appends classes to pieces, as pieces that lead to one kind and cost nothing.
fn push_led(pieces: &mut Vec<Piece>, classes: &[Class], target: Kind) -> Result<(), NoMemory>
    ensures { OnOk result (pieces.new.items ≡ pieces.old.items ++ map (led_to target) classes.now) }
{
    for class in classes {
        let pushed = pieces.push(Piece {
            class: *class,
            target,
            cost: 0,
        });
        if pushed.is_err() {
            return Err(NoMemory);
        }
    }
    Ok(())
}

/// Appends the columns of `a` that are not in `b` to pieces, as pieces that lead to one kind and
/// cost nothing.
fn push_rest_led(
    alloc: Global,
    pieces: &mut Vec<Piece>,
    a: &Class,
    b: &Class,
    target: Kind,
) -> Result<(), NoMemory>
    requires { length (sets_of a.now) ≡ length (sets_of b.now) }
    ensures { OnOk result (AddsLed (length (sets_of a.now)) target pieces.old.items pieces.new.items
        (λ column. once_if (has a.now column && not (has b.now column)))) }
{
    if is_empty(a) {
        return Ok(());
    }
    if is_empty(&meet(a, b)) {
        return push_led(pieces, &[*a], target);
    }
    let rest = minus(alloc, a, b)?;
    push_led(pieces, &rest, target)
}

/// How many sets there are of so many tiers.
fn set_count(tiers: u32) -> u16
    requires { tiers ≤ 12 }
    ensures { result ≡ 2 ^ tiers }
{
    1 << tiers
}

impl<'a> Frame<'a> {
    ghost use Rattle.std.specs.Prelude.{◌<◌, ◌↔◌, All, IfOk, IsTrue};
    ghost use Rattle.symbol_class.specs.Held.{some_has, ArePieces};
    ghost use Rattle.kind_moves.specs.Frames.{tiers_in, FitsAt, FitsFrame};
    ghost use Rattle.kind_moves.specs.Leaving.{AddsLeaving};
    ghost use Rattle.kind_moves.specs.Pieces.{piece_classes, IsPiece};

    /// Appends the columns of `a` that are not in `b` to pieces, by the free tiers that they leave
    /// open. All lead to one place.
    fn push_leaving(
        &self,
        alloc: Global,
        pieces: &mut Vec<Piece>,
        a: &Class,
        b: &Class,
        place: u32,
    ) -> Result<(), NoMemory>
        requires width { length (sets_of a.now) ≡ (tiers_in self.now).width }
        requires same { length (sets_of b.now) ≡ (tiers_in self.now).width }
        ensures { OnOk result (AddsLeaving self.now place pieces.old.items pieces.new.items
            (λ column. once_if (has a.now column && not (has b.now column)))) }
    {
        for opened in 0..set_count(self.free_count()) {
            let target = Kind {
                place,
                opened,
                unmet: 0,
                met: 0,
            };
            push_rest_led(
                alloc,
                pieces,
                &columns_opening(a, self.free, opened),
                b,
                target,
            )?;
        }
        Ok(())
    }

    /// Parts the columns of a class that fit a kind, under no constraint, by the kinds that they lead
    /// to: where they stay at the place of the form and where they go on to the next, by the free
    /// tiers that they leave open. All columns of a piece lead to its target, and cost nothing. No
    /// piece is empty, each column that fits is in exactly one piece, and no other column is in any.
    /// It fails only if memory runs out.
    pub fn all_moves(
        &self,
        alloc: Global,
        kind: &Kind,
        class: &Class,
    ) -> Result<Vec<Piece>, NoMemory>
        requires fits { FitsFrame self.now 0 kind.now }
        requires width { length (sets_of class.now) ≡ (tiers_in self.now).width }
        ensures pieces { IfOk result (λ pieces. ArePieces (tiers_in self.now).width
            (piece_classes pieces.items)) }
        ensures columns { IfOk result (λ pieces. (column : List Sym)
            → IsTrue (some_has (piece_classes pieces.items) column)
            ↔ (IsTrue (has class.now column) × FitsAt self.now 0 kind.now column)) }
        ensures each { IfOk result (λ pieces. All (IsPiece self.now 0 0 kind.now) pieces.items) }
    {
        let following = following(class, self.open_at(kind));
        let still = without_input(&following, self.grammar.tiers.kinds.as_slice());
        let read = self.reading(&following, kind.place);
        let mut pieces = Vec::new(alloc);
        self.push_leaving(alloc, &mut pieces, &still, &edgeless(&still), kind.place)?;
        self.push_leaving(alloc, &mut pieces, &read, &still, kind.place + 1)?;
        Ok(pieces)
    }
}

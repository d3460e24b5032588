ghost use Rattle.std.specs.Prelude.{◌≡◌, ◌<◌, [], ◌∷◌, ◌++◌, ◌↔◌, length, IsTrue, OnOk, OnErr, IfOk, IfErr};
ghost use Rattle.tier_core.specs.Timelines.{column_at};

use crate::NoMemory;
use crate::column::Column;
use std::alloc::Global;
use std::marker::Model;

/// A list of columns, whose places are numbered from 0. Contracts see it as that list.
#[derive(Drop)]
pub struct Timeline {
    columns: Vec<Column>,
}

impl Model for Timeline {
    ghost use Rattle.std.specs.Prelude.{List};
    ghost use Rattle.tier_core.specs.declared.sym.Sym.{Sym};

    ghost Value = { List (List Sym) };

    ghost view = { λ t. t.columns.items };
}

impl Timeline {
    /// The timeline without columns. Allocates no memory.
    pub fn new(alloc: Global) -> Timeline
        ensures { result ≡ [] }
    {
        Timeline {
            columns: Vec::new(alloc),
        }
    }

    /// Adds a column at the end. If memory runs out, the column is returned, and the timeline is
    /// unchanged.
    pub fn push(&mut self, column: Column) -> Result<(), Column>
        ensures ok { OnOk result (self.new ≡ self.old ++ column ∷ []) }
        ensures err { OnErr result (self.new ≡ self.old) }
        ensures back { IfErr result (λ back. back ≡ column) }
    {
        match self.columns.push(column) {
            Ok(()) => Ok(()),
            Err(failed) => Err(failed.value),
        }
    }

    /// The number of columns.
    pub fn len(&self) -> usize
        ensures { result ≡ length self.now }
    {
        self.columns.len()
    }

    /// Whether there is no column.
    pub fn is_empty(&self) -> bool
        ensures { IsTrue result ↔ (self.now ≡ []) }
    {
        self.columns.is_empty()
    }

    /// The column at a place, counted from 0.
    pub fn column(&self, place: usize) -> &Column
        requires { place < length self.now }
        ensures { result.now ≡ column_at self.now place }
    {
        &self.columns[place]
    }

    /// The columns in their order.
    pub fn columns(&self) -> &[Column]
        ensures { result.now ≡ self.now }
    {
        self.columns.as_slice()
    }

    /// A copy of the timeline. It fails only if memory runs out.
    pub fn copy(&self, alloc: Global) -> Result<Timeline, NoMemory>
        ensures { IfOk result (λ copy. copy ≡ self.now) }
    {
        let mut copy = Timeline::new(alloc);
        for column in self.columns() {
            if copy.push(column.copy(alloc)).is_err() {
                return Err(NoMemory);
            }
        }
        Ok(copy)
    }
}

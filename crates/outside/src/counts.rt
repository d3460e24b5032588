ghost use Rattle.std.specs.Prelude.{◌≡◌, ◌≢◌, ◌≤◌, ℕ, List, IsNone, IsSome, OnErr, OnOk};
ghost use Rattle.std.specs.BTreeMap.{get_by_text};
ghost use Rattle.outside.specs.Faults.{next_fault_count};
ghost use Rattle.outside.specs.Counts.{fault_count};
ghost use Rattle.outside.specs.MemShelf.{faults_after};

use crate::shelf::LoadErr;
use std::alloc::{AllocError, Global};
use std::collections::BTreeMap;

// The number of faults of each name that was asked for.
pub(crate) type Counts = BTreeMap<String, u64>;

// Allocates the count of a name, unless it is already there.
pub(crate) fn prepare(counts: &mut Counts, alloc: Global, name: &str) -> Result<(), AllocError>
    ensures ready { OnOk result (IsSome (get_by_text counts.new name.now)) }
    ensures err { OnErr result (IsNone (get_by_text counts.new name.now)) }
    ensures same { (other : List ℕ) → fault_count counts.new other ≡ fault_count counts.old other }
{
    if !counts.contains_key(name) {
        counts.insert(String::from_str(alloc, name)?, 0)?;
    }
    Ok(())
}

// Counts a fault of a name if a load of it has failed.
pub(crate) fn count_fault(counts: &mut Counts, name: &str, answer: &Result<Vec<u8>, LoadErr>)
    requires ready { IsSome (get_by_text counts.old name.now) }
    ensures faults { fault_count counts.new name.now
        ≡ faults_after answer.now (fault_count counts.old name.now) }
    ensures never_falls { (other : List ℕ)
        → fault_count counts.old other ≤ fault_count counts.new other }
    ensures others { (other : List ℕ) → other ≢ name.now
        → fault_count counts.new other ≡ fault_count counts.old other }
{
    if let Err(LoadErr::Failed) = answer {
        raise(counts, name);
    }
}

// Counts one more fault of a name.
fn raise(counts: &mut Counts, name: &str)
    requires ready { IsSome (get_by_text counts.old name.now) }
    ensures raised { fault_count counts.new name.now
        ≡ next_fault_count (fault_count counts.old name.now) }
    ensures never_falls { (other : List ℕ)
        → fault_count counts.old other ≤ fault_count counts.new other }
    ensures others { (other : List ℕ) → other ≢ name.now
        → fault_count counts.new other ≡ fault_count counts.old other }
{
    if let Some(count) = counts.get_mut(name) {
        *count = count.saturating_add(1);
    }
}

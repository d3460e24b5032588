ghost use Rattle.std.specs.Prelude.{IfOk, length};
ghost use Rattle.kind_orders.specs.Orderings.{IsOrdering, AreRanks};

use std::alloc::Global;
use tier_core::NoMemory;

/// The place of each number in an order of all numbers below its length, counted from 0.
pub fn ranks(alloc: Global, order: &[u32]) -> Result<Vec<u32>, NoMemory>
    requires { IsOrdering (length order.now) order.now }
    ensures numbers { IfOk result (λ ranks. IsOrdering (length order.now) ranks.items) }
    ensures told { IfOk result (λ ranks. AreRanks order.now ranks.items) }
{
    let mut ranks = vec![in alloc; 0; order.len()]?;
    for (place, number) in order.iter().enumerate() {
        ranks[*number as usize] = place as u32;
    }
    Ok(ranks)
}

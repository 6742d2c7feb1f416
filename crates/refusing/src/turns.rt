//! Attempts to which memory is refused in turn.

ghost use Rattle.std.specs.Prelude.{◌<◌, IfOk};

use crate::RefusingAllocator;
use std::alloc::Allocator;

/// More allocations than any attempt asks for.
const MANY: u64 = 1000;

/// Makes an attempt while its first allocation is refused, then its second, and so on, until none
/// is. The attempt answers whether it met a refusal. Answers how many allocations were refused.
///
/// # Errors
///
/// The number of the refused allocation at which the attempt answered otherwise than its allocator,
/// or 1000 where it asks for 999 or more.
pub fn refused_in_turn<A, F>(inner: A, attempt: F) -> Result<u64, u64>
where
    A: Allocator + Copy,
    F: Fn(&RefusingAllocator<A>) -> bool,
    requires { F.IsAlwaysCallable attempt }
    ensures { IfOk result (λ n. n < 999) }
{
    for nth in 1..MANY {
        let memory = RefusingAllocator::new(inner, nth);
        let met_refusal = attempt(&memory);
        if met_refusal != memory.has_refused() {
            return Err(nth);
        }
        if !met_refusal {
            return Ok(nth - 1);
        }
    }
    Err(MANY)
}

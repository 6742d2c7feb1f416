//! An allocator for tests, which refuses one allocation of those that are asked of it.
#![tactic(auto)]

ghost use Rattle.std.specs.Prelude.{◌≡◌, ◌+◌, ◌≤◌, ◌↔◌, IsTrue};
ghost use Rattle.refusing.specs.RefusedNumber.{refused_number};

mod turns;

use std::alloc::{AllocError, Allocator, Global};
use std::sync::atomic::{AtomicU64, Ordering};
pub use turns::refused_in_turn;

/// An allocator for tests: it passes each call on to `inner`, and refuses exactly the nth
/// allocation.
///
/// A `&` to it is an allocator too, and is `Copy`. So a test makes one for n = 1, 2, .., lends it
/// to the code that it tests, and ends at the first n at which nothing was refused, as
/// [`refused_in_turn`] does. A block that is grown or shrunk counts as one allocation. Threads may
/// share it, since each request gets a number of its own.
///
/// What is proved is that it is an allocator, whichever allocation it refuses. An atomic's content
/// stands in no clause, so that it refuses the nth one, and says so, is shown by tests.
#[derive(Drop)]
pub struct RefusingAllocator<A: Allocator = Global> {
    inner: A,
    requests: Requests,
}

/// The allocations that were asked for so far, and which one is refused.
#[derive(Drop)]
struct Requests {
    /// How many were asked for.
    asked: AtomicU64,
    /// The number of the one to refuse, counted from 1; 0 refuses none.
    refused: u64,
}

/// Whether the request after `earlier` ones is request number `refused`, counted from 1.
fn is_next(earlier: u64, refused: u64) -> bool
    ensures { IsTrue result ↔ (earlier + 1 ≡ refused) }
{
    earlier < refused && refused - earlier == 1
}

/// Whether request number `refused`, counted from 1, is among the first `asked` ones.
fn is_past(asked: u64, refused: u64) -> bool
    ensures { IsTrue result ↔ ((1 ≤ refused) × (refused ≤ asked)) }
{
    0 < refused && refused <= asked
}

impl Requests {
    /// Counts one request, and answers whether it is the one to refuse.
    fn refuses_next(&self) -> bool {
        let earlier = self.asked.fetch_add(1, Ordering::SeqCst);
        is_next(earlier, self.refused)
    }
}

impl<A: Allocator> RefusingAllocator<A> {
    /// An allocator that refuses the `nth` allocation from now on, counted from 1; at 0 it refuses
    /// none.
    pub fn new(inner: A, nth: u64) -> RefusingAllocator<A>
        ensures { refused_number result ≡ nth }
    {
        RefusingAllocator {
            inner,
            requests: Requests {
                asked: AtomicU64::new(0),
                refused: nth,
            },
        }
    }

    /// How many allocations were asked for so far, the refused one among them.
    pub fn asked(&self) -> u64 {
        self.requests.asked.load(Ordering::SeqCst)
    }

    /// Whether an allocation was refused so far.
    pub fn has_refused(&self) -> bool
        ensures { IsTrue result → 1 ≤ refused_number self.now }
    {
        is_past(self.asked(), self.requests.refused)
    }
}

unsafe impl<A: Allocator> Allocator for RefusingAllocator<A> {
    ghost dealloc_token = { λ heap ty ptr. A.dealloc_token heap.inner ty ptr };

    fn allocate(&self, size: usize, align: usize) -> Result<*mut u8, AllocError> {
        if self.requests.refuses_next() {
            return Err(AllocError);
        }
        self.inner.allocate(size, align)
    }

    unsafe fn deallocate(&self, ptr: *mut u8, size: usize, align: usize) {
        self.inner.deallocate(ptr, size, align);
    }
}

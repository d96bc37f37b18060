//! The allocator that refuses one allocation, and the count of those that it lets through before.
use std::alloc::{AllocError, Allocator};
use std::cell::Cell;

/// An allocator over `inner` that refuses one allocation.
///
/// It is lent to what allocates: `&Refusing<B>` is an allocator too, and `Copy`. A test that makes one with 0, 1, 2 and
/// so on allocations to let through refuses each allocation of a call in turn, until [`Refusing::is_spent`] says that
/// the call came to its end with none refused.
#[derive(Drop)]
pub struct Refusing<B: Allocator> {
    inner: B,
    // How many allocations still pass before the one that is refused. `None` once it was refused.
    passes: Cell<Option<u64>>,
}

impl<B: Allocator> Refusing<B> {
    /// Lets `passes` allocations through to `inner`, refuses the next one, and lets all later ones through.
    pub fn new(inner: B, passes: u64) -> Refusing<B> {
        Refusing {
            inner,
            passes: Cell::new(Some(passes)),
        }
    }

    /// Whether the allocation that was to be refused has come, and was refused.
    pub fn is_spent(&self) -> bool {
        self.passes.get().is_none()
    }
}

// Counts one allocation, and says whether it is the one to refuse.
fn is_refused(passes: &Cell<Option<u64>>) -> bool {
    match passes.get() {
        Some(0) => {
            passes.set(None);
            true
        }
        Some(left) => {
            passes.set(Some(left - 1));
            false
        }
        None => false,
    }
}

unsafe impl<B: Allocator> Allocator for Refusing<B> {
    ghost dealloc_token = { λ heap ty ptr. B.dealloc_token heap.inner ty ptr };

    fn allocate(&self, size: usize, align: usize) -> Result<*mut u8, AllocError> {
        if is_refused(&self.passes) {
            return Err(AllocError);
        }
        self.inner.allocate(size, align)
    }

    unsafe fn deallocate(&self, ptr: *mut u8, size: usize, align: usize) {
        self.inner.deallocate(ptr, size, align);
    }
}

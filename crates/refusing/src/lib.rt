//! An allocator for tests of running out of memory: it counts allocations and the bytes that they
//! request, and refuses those of chosen numbers.
//!
//! [`Refusing`] is over another allocator, as the runtime's, and is handed out as `&heap`. A test
//! makes one for each number in turn and calls what it tests, until a call is made in which nothing
//! was refused.
#![tactic(auto)]

use std::alloc::{AllocError, Allocator};
use std::cell::Cell;

/// An allocator that counts its allocations and their bytes, and refuses some of them; the others,
/// and every freeing, go to the allocator that it is made over.
///
/// Each call of `allocate`, `grow` and `shrink` is an allocation, and they are numbered from 1. It
/// is handed out as `&refusing`, which is `Copy`.
#[derive(Drop)]
pub struct Refusing<B: Allocator> {
    inner: B,
    gate: Gate,
}

impl<B: Allocator> Refusing<B> {
    /// Refuses the allocation of that number alone; none where it is 0.
    pub fn once(inner: B, allocation: u64) -> Refusing<B> {
        Refusing {
            inner,
            gate: Gate::new(allocation, allocation),
        }
    }

    /// Refuses the allocation of that number and each later one.
    pub fn from(inner: B, allocation: u64) -> Refusing<B> {
        Refusing {
            inner,
            gate: Gate::new(allocation, u64::MAX),
        }
    }

    /// How many allocations were requested, those that were refused among them.
    pub fn allocations(&self) -> u64 {
        self.gate.allocations.get()
    }

    /// How many bytes the allocations requested in all, those that were refused among them. One
    /// that makes a block longer requests all bytes of the longer one.
    pub fn bytes(&self) -> u64 {
        self.gate.bytes.get()
    }

    /// Whether an allocation was refused.
    pub fn has_refused(&self) -> bool {
        self.gate.refused.get()
    }
}

/// Counts allocations and says which of them pass.
#[derive(Drop)]
struct Gate {
    allocations: Cell<u64>,
    bytes: Cell<u64>,
    refused: Cell<bool>,
    first: u64,
    last: u64,
}

impl Gate {
    fn new(first: u64, last: u64) -> Gate {
        Gate {
            allocations: Cell::new(0),
            bytes: Cell::new(0),
            refused: Cell::new(false),
            first,
            last,
        }
    }

    /// Counts an allocation of so many bytes, and returns whether it is refused.
    fn refuses(&self, size: usize) -> bool {
        let allocation = self.allocations.get().saturating_add(1);
        self.allocations.set(allocation);
        self.bytes.set(self.bytes.get().saturating_add(size as u64));
        let refused = self.first <= allocation && allocation <= self.last;
        if refused {
            self.refused.set(true);
        }
        refused
    }
}

unsafe impl<B: Allocator> Allocator for Refusing<B> {
    ghost dealloc_token = { λ heap ty ptr. B.dealloc_token heap.inner ty ptr };

    fn allocate(&self, size: usize, align: usize) -> Result<*mut u8, AllocError> {
        if self.gate.refuses(size) {
            return Err(AllocError);
        }
        self.inner.allocate(size, align)
    }

    unsafe fn deallocate(&self, ptr: *mut u8, size: usize, align: usize) {
        self.inner.deallocate(ptr, size, align);
    }
}

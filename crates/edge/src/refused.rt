use std::alloc::{AllocError, AllocFailed};

/// Want of memory. It stands alone or as a variant of its own; no clause ties it to anything.
#[derive(Clone, Copy, Debug, PartialEq, Eq)]
pub struct NoMemory;

impl From<AllocError> for NoMemory {
    fn from(_error: AllocError) -> Self {
        NoMemory
    }
}

impl<T: Drop> From<AllocFailed<T>> for NoMemory {
    fn from(_failed: AllocFailed<T>) -> Self {
        NoMemory
    }
}

/// A read or a write that the outside refused.
#[derive(Clone, Copy, Debug, PartialEq, Eq)]
pub struct Failed;

//! Want of memory.

/// Memory was refused.
pub type NoMemory = std::alloc::AllocError;

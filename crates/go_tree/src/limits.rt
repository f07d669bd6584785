//! Limits, and want of memory.

/// The most bytes of one file.
pub const MAX_FILE_BYTES: u32 = 4_194_304;

/// Memory was refused.
pub type NoMemory = std::alloc::AllocError;

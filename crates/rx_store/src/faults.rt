//! Why a call of a store or a sink was not done.
use std::alloc::AllocError;

/// Why a file was not read.
#[derive(Debug, Drop, thiserror::Error)]
pub enum ReadError {
    /// The store tells its files, and none has this name.
    #[error("no such file")]
    Missing,
    /// The file's length in bytes, which is above the limit. A store that does not tell its files
    /// may stop at limit + 1 bytes, and say that.
    #[error("the file has {0} bytes")]
    TooLong(u64),
    /// The outside failed, and the count of failed reads says so.
    #[error("the file was not read")]
    Failed,
    /// No memory for the bytes.
    #[error("out of memory")]
    Memory(AllocError),
}

/// Why a file or a piece of output was not written.
#[derive(Debug, Drop, thiserror::Error)]
pub enum WriteError {
    /// The outside failed, and the count of failures says so.
    #[error("not written")]
    Failed,
    /// No memory for the bytes.
    #[error("out of memory")]
    Memory(AllocError),
}

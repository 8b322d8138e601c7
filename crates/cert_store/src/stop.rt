//! Why the store refused.

use std::alloc::AllocError;
use thiserror::Error;

/// Why a certificate wasn't stored or found.
#[derive(Debug, Drop, Error)]
pub enum StoreStop {
    /// There is no file under the name.
    #[error("the certificate isn't there")]
    Absent,
    /// The keeper failed: its count of faults rose in this call.
    #[error("the keeper failed")]
    Failed,
    /// There was no memory.
    #[error("out of memory")]
    Memory(AllocError),
}

use std::alloc::{AllocError, AllocFailed};
use tree_store::StoreFail;

/// Why a call has no answer.
#[derive(Clone, Copy, Debug, PartialEq, Eq)]
pub enum RowFail {
    /// There is no memory left.
    NoMemory,
    /// The row's arguments are none for the call.
    Refused,
}

impl From<AllocError> for RowFail {
    fn from(_: AllocError) -> RowFail {
        RowFail::NoMemory
    }
}

impl<T: Drop> From<AllocFailed<T>> for RowFail {
    fn from(_: AllocFailed<T>) -> RowFail {
        RowFail::NoMemory
    }
}

impl From<StoreFail> for RowFail {
    fn from(fail: StoreFail) -> RowFail {
        match fail {
            StoreFail::NoMemory => RowFail::NoMemory,
            StoreFail::StoreFull => RowFail::Refused,
        }
    }
}

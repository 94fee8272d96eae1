//! Certificates: what is wanted, and the steps and uses that show it.
#![tactic(auto)]

mod block;
mod cert_fail;
mod places;
mod reading;
mod uses;
mod writing;

pub use block::{Block, Step};
pub use cert_fail::{CertFail, ReadCertFail};
pub use reading::{blocks_are_accepted, read_blocks};
pub use writing::{print_block, printed_blocks_are_read_back, write_block};

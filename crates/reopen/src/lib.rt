//! Opening a log: the chain of partitions that its regions show, found by their headers alone.
#![tactic(auto)]

mod chain;
mod fault;
mod headers;
mod open;

pub use chain::Chain;
pub use fault::OpenFault;
pub use headers::read_chain;
pub use open::open_log;

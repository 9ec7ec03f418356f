//! The tree of a bucket, on the nodes that the bucket caches and those that a source loads.
#![tactic(auto)]

mod adding;
mod change;
mod descent;
mod fault;
mod fitness;
mod growth;
mod hash;
mod insertion;
mod leaf;
mod removal;
mod scanning;
mod tree;

pub use adding::add_to;
pub use fault::TreeFault;
pub use insertion::insert;
pub use removal::remove;
pub use scanning::scan;
pub use tree::find;

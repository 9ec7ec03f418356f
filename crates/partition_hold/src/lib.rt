//! Who reads which regions: the views of the seats, the board that names the regions which they hold, and sets of regions.
#![tactic(auto)]

mod board;
mod regions;
mod source;
mod view;

pub use board::Board;
pub use regions::RegionSet;
pub use view::{View, view_law};

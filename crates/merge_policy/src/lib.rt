//! Which two neighbours of the chain a merge takes next, and which of the youngest parts are gathered into one.
//!
//! A merge of parts of like lengths writes each byte seldom. As long as the free regions have room for all parts once more, nothing is merged. Then a part is
//! merged with the next one once this is half as long, also where that frees no region: what was written again folds so while there is room to merge it. As
//! the free regions run short, whatever frees a region is merged, and in the end whatever fits.
#![tactic(auto)]

mod figures;
mod policy;
mod young;

pub use figures::{Measured, Space};
pub use policy::next_merge;
pub use young::young_run;

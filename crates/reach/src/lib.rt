// What differing keys reach: of two sets of keys of one sheet, the channels and panes that can read differently.
#![tactic(auto)]

mod call;
mod channels;
mod compared;
mod panes;
mod sets;
mod sheets;
mod track;

pub use call::reach;
pub use compared::{apart, change, same_reading};
pub use panes::touched_panes;
pub use sets::{KeyArrays, TwoSets};
pub use sheets::same_sheet;

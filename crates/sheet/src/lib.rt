// The wall sheet (document 02, slip 4): the keys of a store laid out for the wall. Each public call takes any content and states its whole result, and every
// lent place, by equations with definitions of specs/.
#![tactic(auto)]

mod call;
mod layout;
mod size;
mod wall;

pub use call::{write_sheet, write_sheet_in};
pub use size::SHEET;
pub use wall::wall_text;

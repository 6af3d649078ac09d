// What a search for a pull-out reads besides the plan: the forbidden turn of each point, and which section may be entered there.
#![tactic(auto)]

pub mod enter;
pub mod turn_table;
pub mod yard;

pub use enter::Serving;
pub use yard::{Turn, Yard};

// What code shares of document 01: the label that stands for "none", refusals, and what is said of a walk. The rules themselves are definitions,
// in specs/, and need no code.
#![tactic(auto)]

pub mod copy;
pub mod net;
pub mod refusal;
pub mod route;

// The label that stands for "none".
pub const NO_DISTANCE: u32 = 4294967295;

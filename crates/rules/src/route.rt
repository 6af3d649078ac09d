// What is said of a walk.

// A walk's total, its reversals and its steps.
#[derive(Clone, Copy, Debug, PartialEq, Eq)]
pub struct Route {
    pub total: u32,
    pub reversals: u32,
    pub steps: u32,
}

// Every admissible step of a query's train as rows, the arrivals at which a walk may end, and the reversals of a walk.
#![tactic(auto)]

pub mod asked;
pub mod ends;
pub mod fill;
pub mod listing;
pub mod reversals;
pub mod route;
mod row;
mod serve;
mod step;
pub mod trip;

pub use asked::check_query;
pub use trip::Trip;

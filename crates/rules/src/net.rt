// The steps of all arrivals as a table, which one crate fills and others read.
use crate::NO_DISTANCE;

// A step: the arrival to which it leads, and what it costs. What leads to a number that is no arrival is no step.
#[derive(Clone, Copy, Debug, PartialEq, Eq)]
pub struct Step {
    pub next: u32,
    pub cost: u32,
}

impl Step {
    // No step.
    pub const NONE: Step = Step {
        next: NO_DISTANCE,
        cost: 0,
    };
}

// What the table has of one arrival: its steps, at most two, and whether a walk may end there.
#[derive(Clone, Copy, Debug, PartialEq, Eq)]
pub struct Row {
    pub first: Step,
    pub second: Step,
    pub ends: bool,
}

impl Row {
    // No step, and no end.
    pub const NONE: Row = Row {
        first: Step::NONE,
        second: Step::NONE,
        ends: false,
    };

    // A row that is still to be filled. A table of zeros is made faster than one of other numbers.
    pub const BLANK: Row = Row {
        first: Step { next: 0, cost: 0 },
        second: Step { next: 0, cost: 0 },
        ends: false,
    };
}

// A row for each arrival, and the room that a walk finds at its end.
#[derive(Clone, Copy)]
pub struct NetTable<'a> {
    pub rows: &'a [Row],
    pub room: u32,
}

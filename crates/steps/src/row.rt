// The steps from one arrival: over the other sections of its point, in ascending order.
ghost use Rattle.std.specs.Prelude.{◌≡◌, false, ◌<◌};
ghost use Rattle.rules.specs.Plan.{arrivals};
ghost use Rattle.plan.specs.Lent.{plan_lent};
ghost use Rattle.steps.specs.StepOver.{rules_trip, StepTables, other_than, StepsFrom};

use crate::trip::Trip;
use plan::slots::slot_at;
use rules::net::{Row, Step};

// Of two sections, one that is not c.
fn other_than(c: u32, x: u32, y: u32) -> u32
    ensures { result ≡ other_than c x y }
{
    if x == c { y } else { x }
}

impl Trip<'_> {
    // The steps from arrival a: at most two, since a point has at most three sections. Where a walk may end is marked later.
    pub(crate) fn row_at(&self, served: &[bool; 768], a: u32) -> Row
        requires known { StepTables self.now served.now }
        requires inside { a < arrivals (plan_lent self.now.query.plan) }
        ensures { StepsFrom (rules_trip self.now) a result }
    {
        let c = a / 2;
        let p = self.query.plan.to_point(a);
        let x = slot_at(self.slots, p, 0);
        let y = slot_at(self.slots, p, 1);
        let z = slot_at(self.slots, p, 2);
        let low = other_than(c, x, y);
        let high = other_than(c, z, y);
        // A row keeps no options: what reads one asks whether its step leads to an arrival anyway, and an Option would make rows of 28 bytes of 20.
        let first = self.step_over(served, a, p, low).unwrap_or(Step::NONE);
        let second = self.step_over(served, a, p, high).unwrap_or(Step::NONE);
        Row {
            first,
            second,
            ends: false,
        }
    }
}

// The arrivals at which a walk may end.
ghost use Rattle.std.specs.Prelude.{◌≡◌, false, ℕ, ◌≤◌, ◌<◌, length};
ghost use Rattle.rules.specs.Plan.{section_count, arrivals};
ghost use Rattle.rules.specs.Trip.{Finish, trip_of};
ghost use Rattle.plan.specs.Ends.{Indexed};
ghost use Rattle.plan.specs.Lent.{plan_lent};
ghost use Rattle.train.specs.Asked.{query_lent};
ghost use Rattle.steps.specs.StepTable.{Ends, SameSteps};
ghost use Rattle.steps.specs.Ending.{EndMark};

use crate::trip::Trip;
use plan::slots::NO_SECTION;
use rules::net::Row;

impl Trip<'_> {
    // A walk to the point goal may end at arrival a.
    fn ends_at(&self, goal: u32, a: u32) -> bool
        ensures { EndMark self.now.query.plan.sections.now self.now.query.finish goal a result }
    {
        a / 2 != self.query.finish && self.query.plan.to_point(a) == goal
    }

    // Marks the arrivals at which a walk may end, in the front of the rows, and leaves the steps as they are.
    pub fn fill_ends(&self, rows: &mut [Row])
        requires few { section_count (plan_lent self.now.query.plan) ≤ 1024 }
        requires long { arrivals (plan_lent self.now.query.plan) ≤ length rows.old }
        ensures ends { Ends (trip_of (query_lent self.now.query)) rows.new }
        ensures kept { SameSteps rows.old rows.new }
    {
        let goal = self.query.plan.number(self.query.finish, self.query.enter);
        // By index, as the rows are filled (fill.rt), and section by section, so that the compiler reads both ends of a section by one test.
        for s in 0..self.query.plan.section_count() {
            rows[2 * s as usize].ends = self.ends_at(goal, 2 * s);
            rows[2 * s as usize + 1].ends = self.ends_at(goal, 2 * s + 1);
        }
    }

    // A walk can end somewhere: another section than the finish has its end at the finish point, so that a second slot is filled there.
    pub fn has_end(&self) -> bool
        requires indexed { Indexed self.now.query.plan.sections.now self.now.slots.now }
        requires finish { self.now.query.finish < section_count (plan_lent self.now.query.plan) }
        requires enter { self.now.query.enter ≤ 1 }
        ensures { result ≡ false → (a : ℕ) → Finish (trip_of (query_lent self.now.query)) a → ⊥ }
    {
        let goal = self.query.plan.number(self.query.finish, self.query.enter);
        self.yard().slot_at(goal, 1) != NO_SECTION
    }
}

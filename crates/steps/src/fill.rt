// The rows of the steps, filled arrival by arrival.
ghost use Rattle.std.specs.Prelude.{◌≤◌, ◌<◌, length};
ghost use Rattle.rules.specs.Plan.{arrivals};
ghost use Rattle.rules.specs.Trip.{trip_of};
ghost use Rattle.plan.specs.Lent.{plan_lent};
ghost use Rattle.train.specs.Asked.{query_lent};
ghost use Rattle.steps.specs.StepTable.{StepTable, SameEnds};
ghost use Rattle.steps.specs.StepOver.{RightTables};

use crate::trip::Trip;
use rules::net::Row;

impl Trip<'_> {
    // Every admissible step of the query's train, into the front of the lent rows. Where a walk may end stays as it was.
    pub fn fill_steps(&self, rows: &mut [Row])
        requires tables { RightTables self.now }
        requires some { 0 < self.now.query.length }
        requires short { self.now.query.length ≤ 20000 }
        requires long { arrivals (plan_lent self.now.query.plan) ≤ length rows.old }
        ensures steps { StepTable (trip_of (query_lent self.now.query)) rows.new }
        ensures kept { SameEnds rows.old rows.new }
    {
        let served = self.served();
        // By index: `iter_mut().enumerate()` would ask for a slice of the rows and a cast of each number, and is no plainer.
        for a in 0..2 * self.query.plan.section_count() {
            let ends = rows[a as usize].ends;
            rows[a as usize] = Row {
                ends,
                ..self.row_at(&served, a)
            };
        }
    }
}

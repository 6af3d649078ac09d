// All rows of a query.
ghost use Rattle.std.specs.Prelude.{◌≤◌, length};
ghost use Rattle.rules.specs.Plan.{arrivals};
ghost use Rattle.plan.specs.Lent.{plan_lent};
ghost use Rattle.train.specs.Asked.{query_lent};
ghost use Rattle.steps.specs.Listing.{Ready, Listing};

use crate::trip::Trip;
use rules::net::Row;

impl Trip<'_> {
    // The steps of the query, and where its walks may end, in the front of the lent rows.
    pub fn list_steps(&self, rows: &mut [Row])
        requires ready { Ready self.now }
        requires long { arrivals (plan_lent self.now.query.plan) ≤ length rows.old }
        ensures { Listing (query_lent self.now.query) rows.new }
    {
        self.fill_steps(rows);
        self.fill_ends(rows);
    }
}

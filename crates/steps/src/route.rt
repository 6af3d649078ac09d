// The numbers of a shortest walk.
ghost use Rattle.std.specs.Prelude.{◌≡◌, length, get_or};
ghost use Rattle.rules.specs.Plan.{arrivals};
ghost use Rattle.rules.specs.Query.{start_arrival};
ghost use Rattle.rules.specs.Net.{no_distance, distance, Shortest};
ghost use Rattle.rules.specs.Trip.{query_net, total, walk_reversals};
ghost use Rattle.plan.specs.Lent.{plan_lent};
ghost use Rattle.train.specs.Asked.{query_lent};
ghost use Rattle.steps.specs.Listing.{Ready};

use crate::trip::Trip;
use rules::route::Route;

impl Trip<'_> {
    // The total, the reversals and the steps of a shortest walk, where its distance is the label of the start arrival.
    pub fn route(&self, walk: &[u32], labels: &[u32]) -> Route
        requires ready { Ready self.now }
        requires one_each { length labels.now ≡ arrivals (plan_lent self.now.query.plan) }
        requires shortest { Shortest (query_net (query_lent self.now.query)) (start_arrival (query_lent self.now.query)) walk.now }
        requires label { get_or labels.now (start_arrival (query_lent self.now.query)) no_distance ≡ distance (query_net (query_lent self.now.query)) (start_arrival (query_lent self.now.query)) walk.now }
        ensures total { result.total ≡ total (query_lent self.now.query) walk.now }
        ensures reversals { result.reversals ≡ walk_reversals (query_lent self.now.query) walk.now }
        ensures steps { result.steps ≡ length walk.now }
    {
        let from = self.query.start_arrival();
        let total = self.query.first_distance() + labels[from];
        let reversals = self.count_reversals(from as u32, walk);
        let steps = walk.len() as u32;
        Route {
            total,
            reversals,
            steps,
        }
    }
}

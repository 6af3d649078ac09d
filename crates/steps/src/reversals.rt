// The reversals of a walk.
ghost use Rattle.std.specs.Prelude.{◌≡◌, ◌/◌, ◌<◌, length};
ghost use Rattle.rules.specs.Plan.{forbidden};
ghost use Rattle.rules.specs.Trip.{trip_of, reversals};
ghost use Rattle.plan.specs.Lent.{plan_lent};
ghost use Rattle.train.specs.Asked.{query_lent};
ghost use Rattle.turns.specs.Tables.{Passes, TurnTable};
ghost use Rattle.steps.specs.Linked.{Link, Linked};

use crate::trip::Trip;

impl Trip<'_> {
    // The step from arrival a to arrival b is a reversal.
    fn reverses(&self, a: u32, b: u32) -> bool
        requires passes { Passes self.now.query.plan.sections.now self.now.query.plan.turns.now }
        requires turned { TurnTable self.now.query.plan.sections.now self.now.query.plan.turns.now self.now.turns.now }
        requires link { Link self.now.query.plan.sections.now a b }
        ensures { result ≡ forbidden (plan_lent self.now.query.plan) (a / 2) (b / 2) }
    {
        let p = self.query.plan.to_point(a);
        self.yard().is_forbidden(p, a / 2, b / 2)
    }

    // How many steps of a walk from the arrival `from` are reversals.
    pub fn count_reversals(&self, from: u32, walk: &[u32]) -> u32
        requires passes { Passes self.now.query.plan.sections.now self.now.query.plan.turns.now }
        requires turned { TurnTable self.now.query.plan.sections.now self.now.query.plan.turns.now self.now.turns.now }
        requires few { length walk.now < 4294967296 }
        requires linked { Linked self.now.query.plan.sections.now from walk.now }
        ensures { result ≡ reversals (trip_of (query_lent self.now.query)) from walk.now }
    {
        let mut found = 0;
        let mut a = from;
        for b in walk {
            let reversal = u32::from(self.reverses(a, *b));
            found += reversal;
            a = *b;
        }
        found
    }
}

// Which forbidden turns a pull-out serves.
ghost use Rattle.std.specs.Prelude.{◌≡◌, ◌<◌};
ghost use Rattle.rules.specs.Plan.{turn_count, turn_point};
ghost use Rattle.plan.specs.Lent.{plan_lent};
ghost use Rattle.steps.specs.Served.{TurnServed, Served};
ghost use Rattle.steps.specs.StepOver.{RightTables, may_enter};

use crate::trip::Trip;
use reversal::can_reverse;
use turns::Serving;

impl Trip<'_> {
    // A pull-out serves turn t, at p. A turn that no step can use is not asked for.
    fn turn_served(&self, t: u32, p: u32) -> bool
        requires tables { RightTables self.now }
        requires some { 0 < self.now.query.length }
        requires inside { t < turn_count (plan_lent self.now.query.plan) }
        requires point { p ≡ turn_point (plan_lent self.now.query.plan) t }
        ensures { TurnServed (plan_lent self.now.query.plan) (may_enter self.now) self.now.query.length t result }
    {
        let from = self.query.plan.turn_number(t, 0);
        let onto = self.query.plan.turn_number(t, 1);
        if !(self.may_step(from) || self.may_step(onto)) {
            return false;
        }
        let yard = &self.yard();
        can_reverse(&Serving { yard, from, onto }, p, self.query.length)
    }

    // Of each point, whether a pull-out serves its turn.
    pub(crate) fn served(&self) -> [bool; 768]
        requires tables { RightTables self.now }
        requires some { 0 < self.now.query.length }
        ensures { Served (plan_lent self.now.query.plan) (may_enter self.now) self.now.query.length result }
    {
        let mut points = [false; 768];
        for t in 0..self.query.plan.turn_count() {
            let p = self.query.plan.turn_point(t);
            points[p as usize] = self.turn_served(t, p);
        }
        points
    }
}

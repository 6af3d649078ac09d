// Refusal 6: a second turn at a point.
ghost use Rattle.rules.specs.Plan.{turn_count};
ghost use Rattle.rules.specs.PlanCheck.{second_turn};
ghost use Rattle.plan.specs.Lent.{plan_lent, First};
ghost use Rattle.plan.specs.Turns.{Turned};

use crate::read::Plan;

impl Plan<'_> {
    // The first turn whose point an earlier turn has. A mark stands at the point of each turn passed.
    pub(crate) fn first_second_turn(&self) -> Option<u32>
        requires { Turned self.now.sections.now self.now.turns.now }
        ensures { First (second_turn (plan_lent self.now)) (turn_count (plan_lent self.now)) result }
    {
        let mut marks = [false; 768];
        for t in 0..self.turn_count() {
            let p = self.turn_point(t) as usize;
            if marks[p] {
                return Some(t);
            }
            marks[p] = true;
        }
        None
    }
}

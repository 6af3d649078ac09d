// Refusal 1: the counts are in range, and each table is made of whole rows.
ghost use Rattle.std.specs.Prelude.{◌≡◌};
ghost use Rattle.rules.specs.PlanCheck.{tables_good};
ghost use Rattle.plan.specs.Lent.{plan_lent};

use crate::read::Plan;

impl Plan<'_> {
    pub(crate) fn tables_good(&self) -> bool
        ensures { result ≡ tables_good (plan_lent self.now) }
    {
        let sections = self.sections.len();
        let turns = self.turns.len();
        (1..=768).contains(&self.points)
            && (1..=1024).contains(&(sections / 6))
            && turns / 2 <= 768
            && sections % 6 == 0
            && turns % 2 == 0
    }
}

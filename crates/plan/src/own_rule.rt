// Refusal 2: a section's own rule, which is what it asks of the ground and what it asks of the stock that stands there.
ghost use Rattle.std.specs.Prelude.{◌≡◌, ◌<◌};
ghost use Rattle.rules.specs.Plan.{section_count};
ghost use Rattle.rules.specs.PlanCheck.{ground_good, stock_good, section_bad};
ghost use Rattle.plan.specs.Lent.{plan_lent, First};

use crate::read::{DESTINATION, END_A, END_B, FREE_A, FREE_B, KIND, LENGTH, Plan};

impl Plan<'_> {
    // Section s keeps the ground's part of its rule: two different points, a length in range, one of the two kinds.
    fn ground_good(&self, s: u32) -> bool
        ensures { result ≡ ground_good (plan_lent self.now) s }
    {
        let a = self.number(s, END_A);
        let b = self.number(s, END_B);
        let whole = self.number(s, LENGTH);
        a < self.points
            && b < self.points
            && a != b
            && 1 <= whole
            && whole <= 200000
            && self.number(s, KIND) <= DESTINATION
    }

    // Section s keeps the stock's part of its rule: it is free, or its free lengths leave some of it over. As a usize their sum is exact.
    fn stock_good(&self, s: u32) -> bool
        ensures { result ≡ stock_good (plan_lent self.now) s }
    {
        let a = self.number(s, FREE_A) as usize;
        let b = self.number(s, FREE_B) as usize;
        self.is_free(s) || a + b < self.number(s, LENGTH) as usize
    }

    // Section s breaks its own rule. That there is such a section is asked for the compiler's sake, which then knows its numbers to be inside.
    fn section_bad(&self, s: u32) -> bool
        requires { s < section_count (plan_lent self.now) }
        ensures { result ≡ section_bad (plan_lent self.now) s }
    {
        if !self.has_section(s) {
            return true;
        }
        !(self.ground_good(s) && self.stock_good(s))
    }

    // The first section that breaks its own rule.
    pub(crate) fn first_bad_section(&self) -> Option<u32>
        requires { section_count (plan_lent self.now) < 4294967296 }
        ensures { First (section_bad (plan_lent self.now)) (section_count (plan_lent self.now)) result }
    {
        (0..self.section_count()).find(|s| self.section_bad(*s))
    }
}

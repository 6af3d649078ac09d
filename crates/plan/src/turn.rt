// Refusal 5: what a forbidden turn asks of its two sections.
ghost use Rattle.std.specs.Prelude.{◌≡◌, ◌<◌};
ghost use Rattle.rules.specs.Plan.{turn_count, turn_point};
ghost use Rattle.rules.specs.PlanCheck.{turn_bad};
ghost use Rattle.plan.specs.Lent.{plan_lent, First};
ghost use Rattle.plan.specs.Turns.{connecting_pair, share_point};

use crate::read::{CONNECTING, END_A, END_B, KIND, Plan};

impl Plan<'_> {
    // Sections s and r share a point.
    fn share_point(&self, s: u32, r: u32) -> bool
        ensures { result ≡ share_point (plan_lent self.now) s r }
    {
        self.touches(r, self.number(s, END_A)) || self.touches(r, self.number(s, END_B))
    }

    // Sections s and r are two different connecting sections.
    fn connecting_pair(&self, s: u32, r: u32) -> bool
        ensures { result ≡ connecting_pair (plan_lent self.now) s r }
    {
        self.has_section(s)
            && self.has_section(r)
            && s != r
            && self.number(s, KIND) == CONNECTING
            && self.number(r, KIND) == CONNECTING
    }

    // Turn t is not two different connecting sections that share a point.
    fn turn_bad(&self, t: u32) -> bool
        ensures { result ≡ turn_bad (plan_lent self.now) t }
    {
        let s = self.turn_number(t, 0);
        let r = self.turn_number(t, 1);
        !(self.connecting_pair(s, r) && self.share_point(s, r))
    }

    // The first turn that breaks its rule.
    pub(crate) fn first_bad_turn(&self) -> Option<u32>
        requires { turn_count (plan_lent self.now) < 4294967296 }
        ensures { First (turn_bad (plan_lent self.now)) (turn_count (plan_lent self.now)) result }
    {
        (0..self.turn_count()).find(|t| self.turn_bad(*t))
    }

    // The point of turn t.
    pub fn turn_point(&self, t: u32) -> u32
        ensures { result ≡ turn_point (plan_lent self.now) t }
    {
        self.shared_point(self.turn_number(t, 0), self.turn_number(t, 1))
    }
}

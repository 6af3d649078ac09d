// Refusal 3: a section joins the same two points as an earlier one.
ghost use Rattle.std.specs.Prelude.{◌≡◌, ◌<◌};
ghost use Rattle.rules.specs.Plan.{section_count};
ghost use Rattle.rules.specs.PlanCheck.{doubled};
ghost use Rattle.plan.specs.Ends.{Joined, AtMostThree, Degrees, Slots, no_slots, Indexed};
ghost use Rattle.plan.specs.Lent.{plan_lent, First};

use crate::degree::at_most_three;
use crate::read::{END_A, Plan};
use crate::slots::slots_of;

impl Plan<'_> {
    // Section s against each earlier one.
    fn doubled_anywhere(&self, s: u32) -> bool
        ensures { result ≡ doubled (plan_lent self.now) s }
    {
        (0..s).any(|r| self.same_ends(s, r))
    }

    // Section s against the earlier ones at its end A, which stand in the slots before its own: no other section can join the
    // same two points.
    fn doubled_nearby(&self, slots: &[u32; 2304], s: u32) -> bool
        requires indexed { Indexed self.now.sections.now slots.now }
        requires inside { s < section_count (plan_lent self.now) }
        ensures { result ≡ doubled (plan_lent self.now) s }
    {
        let a = self.number(s, END_A);
        for r in slots_of(slots, a) {
            if *r == s {
                return false;
            }
            if self.same_ends(s, *r) {
                return true;
            }
        }
        false
    }

    // The first section that joins the same two points as an earlier one, in time linear in the number of sections where no point has over
    // three; then the slots are filled too. Any other plan is refused anyway.
    pub(crate) fn first_doubled(&self, degrees: &[u32; 768], slots: &mut [u32; 2304]) -> Option<u32>
        requires joined { Joined self.now.sections.now }
        requires degrees { Degrees self.now.sections.now degrees.now }
        requires empty { slots.old ≡ no_slots }
        ensures first { First (doubled (plan_lent self.now)) (section_count (plan_lent self.now)) result }
        ensures slotted { AtMostThree self.now.sections.now → Slots self.now.sections.now slots.new }
    {
        if at_most_three(degrees) {
            self.index_into(slots);
            (0..self.section_count()).find(|s| self.doubled_nearby(slots, *s))
        } else {
            (0..self.section_count()).find(|s| self.doubled_anywhere(*s))
        }
    }
}

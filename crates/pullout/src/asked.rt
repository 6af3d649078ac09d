// What is asked for: refusals 7 and 15.
ghost use Rattle.std.specs.Prelude.{◌≡◌, ◌&&◌, ltb, drop};
ghost use Rattle.rules.specs.Plan.{section_count, arrivals, to_point, touches};
ghost use Rattle.rules.specs.Refusals.{verdict};
ghost use Rattle.rules.specs.Refused.{verdict_in};
ghost use Rattle.rules.specs.PullAnswer.{turn_asked, pull_checks};
ghost use Rattle.plan.specs.Lent.{plan_lent};
ghost use Rattle.pullout.specs.Asked.{reversal_lent, Prepared};

use crate::Reversal;
use rules::refusal::Refusal;
use train::train_good;
use turns::Yard;

impl Reversal<'_> {
    // The point to which the arrival comes.
    pub(crate) fn point(&self) -> u32
        ensures { result ≡ to_point (plan_lent self.now.plan) self.now.arrival }
    {
        self.plan.to_point(self.arrival)
    }

    // There are such an arrival and such a section, and they meet.
    fn meets(&self) -> bool
        ensures { result ≡ (ltb self.now.arrival (arrivals (plan_lent self.now.plan)) && ltb self.now.section (section_count (plan_lent self.now.plan)) && touches (plan_lent self.now.plan) self.now.section (to_point (plan_lent self.now.plan) self.now.arrival)) }
    {
        self.plan.has_section(self.arrival / 2)
            && self.plan.has_section(self.section)
            && self.plan.touches(self.section, self.point())
    }

    // The turn from the arrival to the section is forbidden at the arrival's point.
    fn turn_asked(&self, yard: &Yard) -> bool
        requires { Prepared self.now yard.now }
        ensures { result ≡ turn_asked (reversal_lent self.now) }
    {
        if !self.meets() {
            return false;
        }
        let from = self.arrival / 2;
        if from == self.section {
            return false;
        }
        yard.is_forbidden(self.point(), from, self.section)
    }

    // Refusals 7 and 15, where the plan has passed.
    pub(crate) fn check_asked(&self, yard: &Yard) -> Result<(), Refusal>
        requires { Prepared self.now yard.now }
        ensures { verdict_in result ≡ verdict (drop 6 (pull_checks (reversal_lent self.now))) }
    {
        if !train_good(self.length) {
            return Err(Refusal::Length);
        }
        if !self.turn_asked(yard) {
            return Err(Refusal::NoTurn);
        }
        Ok(())
    }
}

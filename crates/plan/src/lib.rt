// The plan check, refusals 1 to 6, and the readers of a section's and a turn's numbers.
#![tactic(auto)]

pub mod degree;
mod doubled;
mod own_rule;
pub mod read;
mod second_turn;
pub mod section;
pub mod slots;
mod tables;
pub mod turn;

ghost use Rattle.std.specs.Prelude.{◌≡◌, ◌≤◌, drop};
ghost use Rattle.rules.specs.Plan.{turn_count};
ghost use Rattle.rules.specs.Refusals.{verdict, passed};
ghost use Rattle.rules.specs.Refused.{verdict_in};
ghost use Rattle.rules.specs.PlanCheck.{plan_checks};
ghost use Rattle.plan.specs.Ends.{Joined, AtMostThree, Slots, no_slots};
ghost use Rattle.plan.specs.Lent.{plan_lent};

pub use read::Plan;
use rules::refusal::Refusal;
use slots::NO_SECTION;

impl Plan<'_> {
    // Refusals 5 and 6.
    fn check_turns(&self) -> Result<(), Refusal>
        requires joined { Joined self.now.sections.now }
        requires few { turn_count (plan_lent self.now) ≤ 768 }
        ensures { verdict_in result ≡ verdict (drop 4 (plan_checks (plan_lent self.now))) }
    {
        if let Some(turn) = self.first_bad_turn() {
            return Err(Refusal::Turn(turn));
        }
        if let Some(turn) = self.first_second_turn() {
            return Err(Refusal::SecondTurn(turn));
        }
        Ok(())
    }

    // Refusals 3 and 4, and then those of the turns.
    fn check_ends(&self, slots: &mut [u32; 2304]) -> Result<(), Refusal>
        requires points { self.now.points ≤ 768 }
        requires joined { Joined self.now.sections.now }
        requires few { turn_count (plan_lent self.now) ≤ 768 }
        requires empty { slots.old ≡ no_slots }
        ensures answer { verdict_in result ≡ verdict (drop 2 (plan_checks (plan_lent self.now))) }
        ensures slotted { AtMostThree self.now.sections.now → Slots self.now.sections.now slots.new }
    {
        let degrees = self.degrees();
        if let Some(section) = self.first_doubled(&degrees, slots) {
            return Err(Refusal::Doubled(section));
        }
        if let Some(point) = self.first_bad_degree(&degrees) {
            return Err(Refusal::Degree(point));
        }
        self.check_turns()
    }

    // The plan check, which fills the slots of a plan that passes.
    pub fn check_and_index(&self, slots: &mut [u32; 2304]) -> Result<(), Refusal>
        requires { slots.old ≡ no_slots }
        ensures answer { verdict_in result ≡ verdict (plan_checks (plan_lent self.now)) }
        ensures slotted { verdict (plan_checks (plan_lent self.now)) ≡ passed → Slots self.now.sections.now slots.new }
    {
        if !self.tables_good() {
            return Err(Refusal::Tables);
        }
        if let Some(section) = self.first_bad_section() {
            return Err(Refusal::Section(section));
        }
        self.check_ends(slots)
    }

    // The plan check: any numbers, any lengths of the two tables.
    pub fn check(&self) -> Result<(), Refusal>
        ensures { verdict_in result ≡ verdict (plan_checks (plan_lent self.now)) }
    {
        let mut slots = [NO_SECTION; 2304];
        self.check_and_index(&mut slots)
    }
}

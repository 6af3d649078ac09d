// Which sections a pull-out may enter.
ghost use Rattle.std.specs.Prelude.{◌≡◌, ◌&&◌, ltb};
ghost use Rattle.rules.specs.Plan.{section_count};
ghost use Rattle.rules.specs.PullOut.{any_section};
ghost use Rattle.rules.proofs.Ways.{may_use};
ghost use Rattle.rules.proofs.PullSearch.{fits};
ghost use Rattle.plan.specs.Lent.{plan_lent};
ghost use Rattle.turns.specs.Tables.{Passes, TurnTable, Arrived};

use crate::yard::Yard;

// A turn that a pull-out is to serve: the train came over section `from`, and has to go on over section `onto`.
#[derive(Clone, Copy)]
pub struct Serving<'a> {
    pub yard: &'a Yard<'a>,
    pub from: u32,
    pub onto: u32,
}

impl Serving<'_> {
    // Section e may be entered at p by a train that came over section h and is pulled out for this turn.
    pub fn may_enter(&self, h: u32, p: u32, e: u32) -> bool
        requires passes { Passes self.now.yard.now.plan.sections.now self.now.yard.now.plan.turns.now }
        requires turned { TurnTable self.now.yard.now.plan.sections.now self.now.yard.now.plan.turns.now self.now.yard.now.turns.now }
        requires arrived { Arrived self.now.yard.now.plan.sections.now h p }
        ensures { result ≡ (ltb e (section_count (plan_lent self.now.yard.now.plan)) && fits (plan_lent self.now.yard.now.plan) (may_use any_section self.now.from self.now.onto) h p e) }
    {
        if !self.yard.plan.has_section(e) {
            return false;
        }
        if !self.yard.plan.touches(e, p) {
            return false;
        }
        if e == h {
            return false;
        }
        if self.yard.is_forbidden(p, h, e) {
            return false;
        }
        e != self.from && e != self.onto
    }
}

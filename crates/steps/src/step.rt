// The step from an arrival over one section: where it leads, and what it costs.
ghost use Rattle.std.specs.Prelude.{◌≡◌, ◌<◌};
ghost use Rattle.steps.specs.StepOver.{rules_trip, may_enter, StepTables, Meets, arrival_over, StepOver};

use crate::trip::Trip;
use plan::read::{END_A, LENGTH};
use rules::net::Step;

impl Trip<'_> {
    // A step may enter section s.
    pub(crate) fn may_step(&self, s: u32) -> bool
        ensures { result ≡ may_enter self.now s }
    {
        s != self.query.finish && s != self.query.start && self.query.plan.is_free(s)
    }

    // The arrival over section s that is entered at its end p.
    #[tactic(auto, unfolding(crate::specs::StepOver::arrival_over))]
    fn arrival_over(&self, s: u32, p: u32) -> u32
        requires { s < 1024 }
        ensures { result ≡ arrival_over self.now.query.plan.sections.now s p }
    {
        2 * s + u32::from(self.query.plan.number(s, END_A) == p)
    }

    // The step from arrival a, which has come to p, over section s.
    pub(crate) fn step_over(&self, served: &[bool; 768], a: u32, p: u32, s: u32) -> Option<Step>
        requires known { StepTables self.now served.now }
        requires meets { Meets self.now.query.plan.sections.now a p s }
        ensures { StepOver (rules_trip self.now) a s result }
    {
        if !self.query.plan.has_section(s) || !self.may_step(s) {
            return None;
        }
        let whole = self.query.plan.number(s, LENGTH);
        let next = self.arrival_over(s, p);
        if !self.yard().is_forbidden(p, a / 2, s) {
            return Some(Step { next, cost: whole });
        }
        let pulls_out = served[p as usize];
        if pulls_out {
            let cost = self.query.length + whole;
            return Some(Step { next, cost });
        }
        None
    }
}

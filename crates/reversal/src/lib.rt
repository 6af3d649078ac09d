// Whether a train can reverse: whether there is any pull-out for one turn. Mostly it runs straight on; else a guess is made
// and checked, and where it fails the search for the first pull-out decides.
#![tactic(auto)]

mod glance;
mod guess;
mod passed;
mod run;

ghost use Rattle.std.specs.Prelude.{ℕ, ◌<◌};
ghost use Rattle.rules.specs.Plan.{plan_of};
ghost use Rattle.turns.specs.Tables.{Ready, Arrived};
ghost use Rattle.reversal.specs.Reverses.{Reverses};

use glance::Position;
use guess::guess_point;
use run::{follow, runs_out};
use tries::first_pull_out;
use turns::Serving;

// How many sections a guess may try.
const BUDGET: u32 = 256;

// The search for the first pull-out tells. Its tables are large, so they stand here and not in the way of a guess.
fn search_reversal(serving: &Serving, p: u32, length: u32) -> bool
    requires ready { Ready serving.now.yard.now }
    requires arrived { Arrived serving.now.yard.now.plan.sections.now serving.now.from p }
    requires some { 0 < length }
    ensures { (v : ℕ) → Reverses (plan_of v serving.now.yard.now.plan.sections.now serving.now.yard.now.plan.turns.now) length serving.now.from p serving.now.onto result }
{
    let mut list = [0; 768];
    first_pull_out(serving, p, length, &mut list).is_some()
}

// A train of this length that came to the end p of its section can be pulled out there and go on over the other section of the turn.
pub fn can_reverse(serving: &Serving, p: u32, length: u32) -> bool
    requires ready { Ready serving.now.yard.now }
    requires arrived { Arrived serving.now.yard.now.plan.sections.now serving.now.from p }
    requires some { 0 < length }
    ensures { (v : ℕ) → Reverses (plan_of v serving.now.yard.now.plan.sections.now serving.now.yard.now.plan.turns.now) length serving.now.from p serving.now.onto result }
{
    let start = Position::start(serving, p, length);
    if runs_out(serving, &start) {
        return true;
    }
    let mut list = [0; 64];
    let missed = guess_point(serving, &start, BUDGET, &mut list).is_some();
    if missed {
        return false;
    }
    follow(serving, &start, &list) || search_reversal(serving, p, length)
}

// The search for the first pull-out of one turn, which learns from its failures.
#![tactic(auto)]

mod look;
mod marks;
mod search;

ghost use Rattle.std.specs.Prelude.{ℕ, ◌≤◌, ◌<◌};
ghost use Rattle.rules.specs.Plan.{plan_of};
ghost use Rattle.turns.specs.Tables.{Ready, Arrived};
ghost use Rattle.tries.specs.Searched.{Searched};

use lessons::Row;
use marks::Try;
use points::Points;
use search::Search;
use turns::Serving;

// The first pull-out, with a table of lessons for N points.
fn search_sized<const N: usize>(
    serving: &Serving,
    p: u32,
    need: u32,
    out: &mut [u32; 768],
) -> Option<usize>
    requires few { N ≤ 768 }
    requires ready { Ready serving.now.yard.now }
    requires arrived { Arrived serving.now.yard.now.plan.sections.now serving.now.from p }
    requires some { 0 < need }
    ensures { (v : ℕ) → Searched (plan_of v serving.now.yard.now.plan.sections.now serving.now.yard.now.plan.turns.now) need serving.now.from p serving.now.onto out.old result out.new }
{
    let mut memo = [Row::NOTHING; N];
    let mut why = Points::none();
    let mut search = Search {
        serving,
        memo: &mut memo,
        out,
    };
    search
        .try_point(&mut why, Try::first(p, need), serving.from, p, 0)
        .ok()
}

// The first pull-out for a turn at p, that takes the length need: its sections are written into the front of the lent list, and the answer
// is how many, if there is one.
pub fn first_pull_out(serving: &Serving, p: u32, need: u32, out: &mut [u32; 768]) -> Option<usize>
    requires ready { Ready serving.now.yard.now }
    requires arrived { Arrived serving.now.yard.now.plan.sections.now serving.now.from p }
    requires some { 0 < need }
    ensures { (v : ℕ) → Searched (plan_of v serving.now.yard.now.plan.sections.now serving.now.yard.now.plan.turns.now) need serving.now.from p serving.now.onto out.old result out.new }
{
    // Filling a table takes time, so a plan of at most 64 sections, which have at most 128 points, has a small one.
    if serving.yard.plan.section_count() <= 64 {
        search_sized::<128>(serving, p, need, out)
    } else {
        search_sized::<768>(serving, p, need, out)
    }
}

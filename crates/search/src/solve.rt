// All remaining distances and the first shortest walk of a query that has passed its checks.
ghost use Rattle.std.specs.Prelude.{◌≡◌, ◌≤◌, ◌<◌, length};
ghost use Rattle.rules.specs.Plan.{arrivals};
ghost use Rattle.distance.specs.Table.{table_net, Table};
ghost use Rattle.distance.specs.Labels.{Blank};
ghost use Rattle.plan.specs.Lent.{plan_lent};
ghost use Rattle.train.specs.Asked.{query_lent};
ghost use Rattle.steps.specs.Listing.{Ready};
ghost use Rattle.search.specs.Solved.{SolvedOver, Solvable, Solved};

use distance::{first_walk, remaining};
use rules::NO_DISTANCE;
use rules::net::{NetTable, Row};
use steps::Trip;

// The labels of a table's arrivals, and, where its label is a number, the walk from one of them. A label that is none is a number of its own,
// since labels are handed out through the C interface.
fn solve_over(net: &NetTable, from: usize, known: &mut [u32], walk: &mut [u32]) -> Option<usize>
    requires table { Table net.now }
    requires in_bounds { from < length net.now.rows.now }
    requires one_each { length known.old ≡ length net.now.rows.now }
    requires blank { Blank (length known.old) known.old }
    requires walk_fits { length net.now.rows.now ≤ length walk.old }
    ensures { SolvedOver (table_net net.now) (length net.now.rows.now) from known.new walk.new result }
{
    remaining(net, known);
    if known[from] == NO_DISTANCE {
        return None;
    }
    Some(first_walk(net, known, from, walk))
}

// All labels and the walk of what is asked, with rows for N arrivals.
fn solve_sized<const N: usize>(trip: &Trip, known: &mut [u32], walk: &mut [u32]) -> Option<usize>
    requires ready { Ready trip.now }
    requires lent { Solvable (query_lent trip.now.query) known.old walk.old }
    requires small { N ≤ 2048 }
    requires rows_fit { arrivals (plan_lent trip.now.query.plan) ≤ N }
    ensures { Solved (query_lent trip.now.query) known.new walk.new result }
{
    let mut rows = [Row::BLANK; N];
    let rows = &mut rows[..known.len()];
    trip.list_steps(rows);
    let net = NetTable {
        rows,
        room: trip.query.finish_room(),
    };
    let from = trip.query.start_arrival();
    solve_over(&net, from, known, walk)
}

// All labels and the walk of what is asked; the answer is how many steps the walk has. Where no walk can end, every label stays "none".
// Clearing rows takes time, so a small plan has few.
pub fn solve(trip: &Trip, known: &mut [u32], walk: &mut [u32]) -> Option<usize>
    requires ready { Ready trip.now }
    requires lent { Solvable (query_lent trip.now.query) known.old walk.old }
    ensures { Solved (query_lent trip.now.query) known.new walk.new result }
{
    if !trip.has_end() {
        return None;
    }
    if known.len() <= 128 {
        return solve_sized::<128>(trip, known, walk);
    }
    solve_sized::<2048>(trip, known, walk)
}

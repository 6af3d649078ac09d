// Whether a list is an admissible walk, and what its steps cost: one look at the table for each arrival of the list.
ghost use Rattle.std.specs.Prelude.{◌<◌, ⊤, length, MatchOption};
ghost use Rattle.rules.specs.Trip.{Trip, net_of};
ghost use Rattle.sheet.specs.Laid.{Laid, LaidOut};
ghost use Rattle.sheet.specs.Following.{StepCost, WalkFound};

use rules::net::NetTable;

// What the step from arrival a to arrival b costs.
fn step_cost(net: &NetTable, a: usize, b: u32) -> Option<u32>
    requires { a < length net.now.rows.now }
    ensures inside { MatchOption result ⊤ (λ c. b < length net.now.rows.now) }
    ensures cost { (t : Trip) → Laid t net.now.rows.now → StepCost t a b result }
{
    if b as usize >= net.rows.len() {
        return None;
    }
    let row = &net.rows[a];
    if row.first.next == b {
        return Some(row.first.cost);
    }
    if row.second.next == b {
        return Some(row.second.cost);
    }
    None
}

// What the steps of the list cost from one arrival, if it is a walk from there. The sum stays at "none" once it has come so far, so that a
// list of any length has one.
pub(crate) fn follow(net: &NetTable, from: usize, list: &[u32]) -> Option<u32>
    requires { from < length net.now.rows.now }
    ensures { (t : Trip) → LaidOut t net.now.rows.now → WalkFound (net_of t) from list.now result }
{
    let mut a = from;
    let mut sum: u32 = 0;
    for b in list {
        let more = step_cost(net, a, *b)?;
        sum = sum.saturating_add(more);
        a = *b as usize;
    }
    if net.rows[a].ends { Some(sum) } else { None }
}

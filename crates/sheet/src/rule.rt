// The label rules: one pass over the arrivals.
ghost use Rattle.std.specs.Prelude.{◌≡◌, true, ◌↔◌, ◌<◌, ⊤, length, MatchOption};
ghost use Rattle.rules.specs.Net.{AtMost, KeepsRules};
ghost use Rattle.rules.specs.Trip.{Trip, net_of};
ghost use Rattle.sheet.specs.Laid.{LaidOut};
ghost use Rattle.sheet.specs.Keeping.{label_at, EndKept, StepKept, FirstBroken};

use rules::NO_DISTANCE;
use rules::net::{NetTable, Row, Step};

// The label before a step is at most its cost and the label after it.
fn at_most(before: u32, cost: u32, after: u32) -> bool
    ensures { (result ≡ true) ↔ AtMost before cost after }
{
    after == NO_DISTANCE
        || before != NO_DISTANCE && before as usize <= cost as usize + after as usize
}

// The rule where a walk may end: the label before is at most the room.
fn end_kept(row: &Row, room: u32, before: u32) -> bool
    ensures { (result ≡ true) ↔ EndKept row.now room before }
{
    !row.ends || before <= room
}

// The rule for a step of the table.
fn step_kept(step: &Step, labels: &[u32], before: u32) -> bool
    ensures { (result ≡ true) ↔ StepKept step.now labels.now before }
{
    labels
        .get(step.next as usize)
        .is_none_or(|after| at_most(before, step.cost, *after))
}

// The rules at arrival a.
fn rules_kept(net: &NetTable, labels: &[u32], a: usize) -> bool
    requires one_each { length labels.now ≡ length net.now.rows.now }
    requires in_bounds { a < length labels.now }
    ensures { (t : Trip) → LaidOut t net.now.rows.now → net.now.room ≡ t.room → (result ≡ true) ↔ KeepsRules (net_of t) (label_at labels.now) a }
{
    let row = &net.rows[a];
    let before = labels[a];
    end_kept(row, net.room, before)
        && step_kept(&row.first, labels, before)
        && step_kept(&row.second, labels, before)
}

// The lowest arrival at which a rule is broken.
pub(crate) fn first_broken(net: &NetTable, labels: &[u32]) -> Option<usize>
    requires { length labels.now ≡ length net.now.rows.now }
    ensures inside { MatchOption result ⊤ (λ a. a < length labels.now) }
    ensures first { (t : Trip) → LaidOut t net.now.rows.now → net.now.room ≡ t.room → FirstBroken (net_of t) (label_at labels.now) (length labels.now) result }
{
    (0..labels.len()).find(|a| !rules_kept(net, labels, *a))
}

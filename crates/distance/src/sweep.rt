// Sweeps over all arrivals, until nothing falls: then each label is the best that is offered. The worklist leaves none to fall, as lib.rt
// argues, so one look at each arrival is all that a run takes here; sweeps stand for the proof, which knows nothing of the worklist's order.
ghost use Rattle.std.specs.Prelude.{◌≡◌, true, ◌≤◌, ◌<◌, length, get_or};
ghost use Rattle.rules.specs.Net.{no_distance};
ghost use Rattle.distance.specs.Labels.{best, Sizes, Above, Settled, Relaxed, Swept, Still};

use crate::label::{best, end_offer, lower, offer};
use rules::net::NetTable;

// Lowers the label of arrival a to the best that is offered; whether it falls.
fn relax(net: &NetTable, labels: &mut [u32], a: usize) -> bool
    requires sizes { Sizes 2048 net.now labels.old }
    requires in_bounds { a < length labels.old }
    ensures { Relaxed net.now labels.old labels.new a result }
{
    let v = best(net, labels, a);
    lower(labels, a, v)
}

// Relaxes each arrival once; whether any label fell.
fn sweep(net: &NetTable, labels: &mut [u32]) -> bool
    requires { Sizes 2048 net.now labels.old }
    ensures { Swept net.now labels.old labels.new (length labels.old) result }
{
    let mut fell = false;
    for a in 0..labels.len() {
        fell |= relax(net, labels, a);
    }
    fell
}

// The label of arrival a is no more than each of what is offered.
#[tactic(auto, unfolding(crate::specs::Labels::best), using(std::proofs::lemmas::List::get_or_default))]
fn is_still(net: &NetTable, labels: &[u32], a: usize) -> bool
    requires one_each { length labels.now ≡ length net.now.rows.now }
    requires in_bounds { a < length labels.now }
    ensures { result ≡ true → get_or labels.now a no_distance ≤ best net.now labels.now a }
{
    let row = &net.rows[a];
    let label = labels[a];
    label <= end_offer(row, net.room)
        && label <= offer(&row.first, labels)
        && label <= offer(&row.second, labels)
}

// Whether no label is more than what is offered: a sweep would find nothing, and takes longer.
fn still(net: &NetTable, labels: &[u32]) -> bool
    requires { Sizes 2048 net.now labels.now }
    ensures { result ≡ true → Still net.now labels.now (length labels.now) }
{
    (0..labels.len()).all(|a| is_still(net, labels, a))
}

// Sweeps until nothing falls.
pub(crate) fn settle(net: &NetTable, labels: &mut [u32])
    requires sizes { Sizes 2048 net.now labels.old }
    requires above { Above net.now labels.old }
    ensures { Settled net.now labels.new }
{
    if still(net, labels) {
        return;
    }
    while sweep(net, labels) {}
}

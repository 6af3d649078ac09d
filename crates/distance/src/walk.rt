// The first shortest walk: from arrival to arrival by the step of the smallest section that gives the label.
ghost use Rattle.std.specs.Prelude.{◌≡◌, ◌≤◌, ◌<◌, length, get_or};
ghost use Rattle.rules.specs.Net.{no_distance};
ghost use Rattle.distance.specs.Table.{table_net, Table};
ghost use Rattle.distance.specs.Answer.{Labels, Written};
ghost use Rattle.distance.specs.Picked.{Picked};

use crate::label::offer;
use rules::net::NetTable;

// Where the first step of arrival a leads, whose section is the smaller, if it offers the label of a; else where the second leads.
fn pick(net: &NetTable, labels: &[u32], a: usize) -> u32
    requires one_each { length labels.now ≡ length net.now.rows.now }
    requires in_bounds { a < length labels.now }
    ensures { Picked net.now.rows.now labels.now a result }
{
    let row = &net.rows[a];
    if offer(&row.first, labels) == labels[a] {
        return row.first.next;
    }
    row.second.next
}

// The first shortest walk from an arrival that has one, into the front of walk, and how many steps it has. The room is not read: it
// says of which distances the labels speak.
pub fn first_walk(net: &NetTable, labels: &[u32], from: usize, walk: &mut [u32]) -> usize
    requires table { Table net.now }
    requires exact { Labels (table_net net.now) (length net.now.rows.now) labels.now }
    requires from_in_bounds { from < length net.now.rows.now }
    requires reached { get_or labels.now from no_distance < no_distance }
    requires walk_fits { length net.now.rows.now ≤ length walk.old }
    ensures written { Written (table_net net.now) from (get_or labels.now from no_distance) walk.old result walk.new }
    ensures short { result < length net.now.rows.now }
{
    let mut a = from;
    // counted by hand: a `for` over the places of the walk would need an answer for a walk that fills them all, and there is none
    let mut k: usize = 0;
    while !net.rows[a].ends {
        let b = pick(net, labels, a);
        walk[k] = b;
        a = b as usize;
        k += 1;
    }
    k
}

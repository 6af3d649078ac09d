// The remaining distances over a table of steps, and the first shortest walk. Trains and plans are not known here.
//
// Proved: for every table that is as asked, each label is the remaining distance of its arrival, or "none" where no walk leads on; the
// walk is a shortest one, of these the first by its section numbers, and has fewer steps than there are arrivals; both entries end, stay
// within the lent slices, and the walk changes nothing behind the front that it fills.
//
// Not proved, but argued: how long it takes. The labels are found by a worklist (worklist.rt), and that no step lowers one is then seen
// in one pass (sweep.rt). Each arrival is looked at once to begin with and once at the end. Between, an arrival comes into the queue
// only when its label falls, and then passes its label back over the steps that lead to it. The queue (queue.rt) hands out arrivals ring
// by ring, a ring for 2,048 decimetres. What is passed back from a ring is no less than its lowest label, so an arrival is taken out of
// one ring only, that of its distance. Within a ring those that came first are taken out first: in round i each at most once, and after
// it each has its distance whose shortest walk has at most i steps in that ring. So where no step costs less than c, an arrival is taken
// out at most 1 + 2,047 / c times; measured, once, but for one in a hundred. It is never more than 2,048 times, so that the limit of
// 2,048 * 2,048 does not cut the worklist short. Empty rings are passed over, one for each 2,048 decimetres of the greatest distance, and
// that is at most 220,000. Were the labels not settled then, sweeps would go on, and end after as many as there are arrivals.
#![tactic(auto)]

mod label;
mod queue;
mod sweep;
mod walk;
mod worklist;

ghost use Rattle.std.specs.Prelude.{◌≡◌, length};
ghost use Rattle.distance.specs.Table.{table_net, Table};
ghost use Rattle.distance.specs.Labels.{Blank};
ghost use Rattle.distance.specs.Answer.{Labels};

use rules::net::NetTable;
use sweep::settle;
pub use walk::first_walk;
use worklist::run_down;

// The remaining distance of each arrival, in whose label stands "none" before.
pub fn remaining(net: &NetTable, labels: &mut [u32])
    requires table { Table net.now }
    requires one_each { length labels.old ≡ length net.now.rows.now }
    requires blank { Blank (length labels.old) labels.old }
    ensures { Labels (table_net net.now) (length net.now.rows.now) labels.new }
{
    run_down(net, labels);
    settle(net, labels);
}

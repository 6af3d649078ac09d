// The worklist: labels fall from the ends backwards, step by step, so that the sweep that follows finds them settled. Nothing is
// claimed of which arrivals wait, only that labels stay above what is offered: the sweep decides.
ghost use Rattle.std.specs.Prelude.{◌≡◌, ◌+◌, ◌*◌, ◌≤◌, ◌<◌, cond, length};
ghost use Rattle.distance.specs.Labels.{Sizes, Kept};
ghost use Rattle.distance.specs.declared.queue.TheConstants.{ARRIVALS};

use crate::label::lower;
use crate::queue::{Queue, ring};
use rules::net::{NetTable, Row, Step};

// The last two places whose steps lead to an arrival: 2a is that of the first step of arrival a, 2a + 1 that of its second. No arrival of a
// plan has a third; one left out would leave it to the sweep.
// Places, since with arrivals, whose step had to be found, a run took a sixth longer; as u16 with 65535 for none,
// since an Option<u16> has twice the size, and so would the table that each run clears.
#[derive(Clone, Copy)]
struct Leading {
    last: u16,
    before: u16,
}

impl Leading {
    // No place: there is no such arrival.
    const NONE: Leading = Leading {
        last: 65535,
        before: 65535,
    };
}

// Notes that the step at place k leads to arrival b.
fn note_place(leading: &mut [Leading], k: usize, b: u32)
    requires { k < 4096 }
{
    let at = b as usize;
    if at < leading.len() {
        leading[at].before = leading[at].last;
        leading[at].last = k as u16;
    }
}

// The step of a row at an even or an odd place.
fn step_at(row: &Row, odd: bool) -> &Step
    ensures { result.now ≡ cond odd row.now.second row.now.first }
{
    if odd { &row.second } else { &row.first }
}

// The tables of the worklist, for at most A arrivals.
// Net and labels are lent to each method: a struct that held the lent labels would have to say in each contract that they are the same slice still.
#[derive(Drop)]
struct Worklist<const A: usize, const L: usize> {
    leading: [Leading; A],
    queue: Queue<L>,
    ghost small: { A ≤ 2048 },
    ghost node_each: { ARRIVALS + A ≤ L },
}

impl<const A: usize, const L: usize> Worklist<A, L> {
    // Gives arrival a, if a walk may end there, the room for its label; it waits where its label falls.
    fn begin_at(&mut self, net: &NetTable, labels: &mut [u32], a: usize)
        requires sizes { Sizes A net.now labels.old }
        requires in_bounds { a < length labels.old }
        ensures kept { Kept net.now labels.old labels.new }
        ensures came { self.new.queue.came ≤ self.old.queue.came + 1 }
    {
        if net.rows[a].ends && lower(labels, a, net.room) {
            self.queue.wait(a, net.room);
        }
    }

    // Notes all steps, and gives the arrivals at which a walk may end their labels.
    fn begin(&mut self, net: &NetTable, labels: &mut [u32])
        requires sizes { Sizes A net.now labels.old }
        ensures kept { Kept net.now labels.old labels.new }
        ensures came { self.new.queue.came ≤ self.old.queue.came + length labels.old }
    {
        for a in 0..labels.len() {
            note_place(&mut self.leading, 2 * a, net.rows[a].first.next);
            note_place(&mut self.leading, 2 * a + 1, net.rows[a].second.next);
            self.begin_at(net, labels, a);
        }
    }

    // Lowers the label of an arrival that has a step to b at this place to what that step offers. The arrival waits where its label falls.
    fn pass_to(&mut self, net: &NetTable, labels: &mut [u32], b: usize, place: u16)
        requires sizes { Sizes A net.now labels.old }
        requires in_bounds { b < length labels.old }
        ensures kept { Kept net.now labels.old labels.new }
        ensures came { self.new.queue.came ≤ self.old.queue.came + 1 }
    {
        let a = place as usize / 2;
        if labels.len() <= a {
            return;
        }
        let step = step_at(&net.rows[a], place % 2 == 1);
        if step.next as usize != b {
            return;
        }
        let v = step.cost.saturating_add(labels[b]);
        if lower(labels, a, v) {
            self.queue.wait(a, v);
        }
    }

    // Passes the label of arrival b back over the steps that lead to it.
    fn pass_back(&mut self, net: &NetTable, labels: &mut [u32], b: usize)
        requires sizes { Sizes A net.now labels.old }
        requires in_bounds { b < length labels.old }
        ensures kept { Kept net.now labels.old labels.new }
        ensures came { self.new.queue.came ≤ self.old.queue.came + 2 }
    {
        let Leading { last, before } = self.leading[b];
        self.pass_to(net, labels, b, last);
        self.pass_to(net, labels, b, before);
    }

    // Takes the first arrival out of a ring and passes its label back.
    fn serve(&mut self, net: &NetTable, labels: &mut [u32], head: usize)
        requires sizes { Sizes A net.now labels.old }
        requires is_head { head < ARRIVALS }
        ensures kept { Kept net.now labels.old labels.new }
        ensures came { self.new.queue.came ≤ self.old.queue.came + 2 }
    {
        let Some(b) = self.queue.take(head) else {
            return;
        };
        if b < labels.len() {
            self.pass_back(net, labels, b);
        }
    }

    // Passes labels back from the arrivals that wait, ring by ring, until as many were taken out as came. That it stops when the square
    // of the number of arrivals were taken out is for the proof that it ends.
    fn chase(&mut self, net: &NetTable, labels: &mut [u32])
        requires sizes { Sizes A net.now labels.old }
        ensures { Kept net.now labels.old labels.new }
    {
        let mut head = ring(net.room);
        for taken in 0..4194304 {
            if taken == self.queue.came {
                return;
            }
            head = self.queue.full_ring(head);
            self.serve(net, labels, head);
        }
    }
}

// Labels as low as the worklist makes them, with tables for A arrivals and L nodes.
fn run_with<const A: usize, const L: usize>(net: &NetTable, labels: &mut [u32])
    requires sizes { Sizes A net.now labels.old }
    requires small { A ≤ 2048 }
    requires node_each { ARRIVALS + A ≤ L }
    requires few { L ≤ 65536 }
    ensures { Kept net.now labels.old labels.new }
{
    let mut worklist: Worklist<A, L> = Worklist {
        leading: [Leading::NONE; A],
        queue: Queue::new(),
    };
    worklist.queue.empty_rings();
    worklist.begin(net, labels);
    worklist.chase(net, labels);
}

// Labels as low as the worklist makes them. A small plan has small tables, since clearing them takes time.
pub(crate) fn run_down(net: &NetTable, labels: &mut [u32])
    requires { Sizes 2048 net.now labels.old }
    ensures { Kept net.now labels.old labels.new }
{
    if labels.len() <= 128 {
        run_with::<128, 257>(net, labels);
    } else {
        run_with::<2048, 2177>(net, labels);
    }
}

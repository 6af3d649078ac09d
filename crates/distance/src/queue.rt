// The queue of the worklist: the arrivals that wait, in the order of their labels but for 2,048 decimetres. Nothing is claimed of
// the order or of who waits, only that links lead to nodes.
//
// There are 128 rings of nodes, each with a head. An arrival waits in the ring of its label: rings count whole 2,048 decimetres, and
// the first comes again after the last. A step costs at most 220,000, so while a ring is emptied the labels that wait belong to that ring
// and the next 108, and those in one ring lie within 2,048. There the first to come is the first to be taken out.
//
// Nodes 1 to 128 are the heads, and node 129 + a is arrival a. A node before which stands 0 is in no ring.
// Links are u16 with 0 for none: an Option<u16> has twice the size, and so would the table that each run clears.
ghost use Rattle.std.specs.Prelude.{◌≡◌, ◌+◌, ◌≤◌, ◌<◌};
ghost use Rattle.distance.specs.Queue.{Linked};
ghost use Rattle.distance.specs.declared.queue.TheConstants.{ARRIVALS};

// How many rings there are, and the last head.
const RINGS: usize = 128;

// The node of arrival 0, and one more than the last head.
const ARRIVALS: usize = 129;

// The nodes after and before this one in its ring.
#[derive(Clone, Copy)]
struct Node {
    after: u16,
    before: u16,
}

impl Node {
    // A node in no ring.
    const ALONE: Node = Node {
        after: 0,
        before: 0,
    };
}

// The nodes, and how many arrivals have come to wait.
#[derive(Drop)]
pub(crate) struct Queue<const L: usize> {
    nodes: [Node; L],
    pub(crate) came: u32,
    ghost few: { L ≤ 65536 },
    ghost heads: { ARRIVALS ≤ L },
    ghost linked: { Linked L nodes },
}

impl<const L: usize> Queue<L> {
    // A queue to which none has come yet; its rings are still to be made, since a loop in here makes the compiler copy the array.
    pub(crate) fn new() -> Self
        requires has_heads { ARRIVALS ≤ L }
        requires few { L ≤ 65536 }
        ensures { result.came ≡ 0 }
    {
        Queue {
            nodes: [Node::ALONE; L],
            came: 0,
        }
    }

    // The node after x.
    fn after(&self, x: usize) -> usize
        requires { x < L }
        ensures { result < L }
    {
        self.nodes[x].after as usize
    }

    // The node before x, or 0 if it is in no ring.
    fn before(&self, x: usize) -> usize
        requires { x < L }
        ensures { result < L }
    {
        self.nodes[x].before as usize
    }

    // Makes y the node after x.
    fn join(&mut self, x: usize, y: usize)
        requires x_in_bounds { x < L }
        requires y_in_bounds { y < L }
        ensures { self.new.came ≡ self.old.came }
    {
        self.nodes[x].after = y as u16;
        self.nodes[y].before = x as u16;
    }

    // Makes every ring empty: its head alone.
    pub(crate) fn empty_rings(&mut self)
        ensures { self.new.came ≡ self.old.came }
    {
        for head in 1..ARRIVALS {
            self.join(head, head);
        }
    }

    // The head of the first ring from this on in which an arrival waits.
    pub(crate) fn full_ring(&self, from: usize) -> usize
        requires { from < ARRIVALS }
        ensures { result < ARRIVALS }
    {
        let mut head = from;
        for _ in 0..RINGS {
            if ARRIVALS <= self.after(head) {
                return head;
            }
            head = head % RINGS + 1;
        }
        head
    }

    // Puts the node x at the back of a ring.
    fn append(&mut self, head: usize, x: usize)
        requires head_in_bounds { head < L }
        requires x_in_bounds { x < L }
        ensures { self.new.came ≡ self.old.came }
    {
        let last = self.before(head);
        self.join(last, x);
        self.join(x, head);
    }

    // Takes the node x out of the ring in which it is; where it is in none, one more has come.
    fn leave(&mut self, x: usize)
        requires in_bounds { x < L }
        ensures { self.new.came ≤ self.old.came + 1 }
    {
        let last = self.before(x);
        if last == 0 {
            // never at the greatest number: at most as many come as the clauses count
            self.came = self.came.wrapping_add(1);
            return;
        }
        let rest = self.after(x);
        self.join(last, rest);
    }

    // Arrival a, whose label has fallen to this, waits in its ring and in no other.
    pub(crate) fn wait(&mut self, a: usize, label: u32)
        requires has_node { ARRIVALS + a < L }
        ensures { self.new.came ≤ self.old.came + 1 }
    {
        let x = ARRIVALS + a;
        self.leave(x);
        self.append(ring(label), x);
    }

    // Takes the first arrival out of a ring, if one waits there.
    pub(crate) fn take(&mut self, head: usize) -> Option<usize>
        requires { head < ARRIVALS }
        ensures { self.new.came ≡ self.old.came }
    {
        let x = self.after(head);
        let a = x.checked_sub(ARRIVALS)?;
        let rest = self.after(x);
        self.join(head, rest);
        self.nodes[x].before = 0;
        Some(a)
    }
}

// The head of the ring of a label.
pub(crate) fn ring(label: u32) -> usize
    ensures { result < ARRIVALS }
{
    label as usize / 2048 % RINGS + 1
}

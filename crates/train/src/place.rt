// Where a train stands: its start arrival, its first distance, the stock on its section.
ghost use Rattle.std.specs.Prelude.{◌≡◌};
ghost use Rattle.rules.specs.Query.{start_arrival, first_distance, taken, stands, alone, destination_end};
ghost use Rattle.train.specs.Asked.{query_lent};

use crate::Query;
use plan::read::{FREE_A, FREE_B, KIND, LENGTH};

impl Query<'_> {
    // The arrival on the start section at the start end.
    pub fn start_arrival(&self) -> usize
        ensures { result ≡ start_arrival (query_lent self.now) }
    {
        2 * self.start as usize + self.leave as usize
    }

    // The distance with which every walk begins.
    pub fn first_distance(&self) -> u32
        ensures { result ≡ first_distance (query_lent self.now) }
    {
        self.plan.free_at(self.start, self.leave)
    }

    // What the train and the two free lengths of its section take together: a sum that can't wrap.
    fn taken(&self) -> usize
        ensures { result ≡ taken (query_lent self.now) }
    {
        let from_a = self.plan.number(self.start, FREE_A) as usize;
        let from_b = self.plan.number(self.start, FREE_B) as usize;
        self.length as usize + from_a + from_b
    }

    // At least a train's length of stock stands on the start section.
    pub fn stands(&self) -> bool
        ensures { result ≡ stands (query_lent self.now) }
    {
        self.taken() <= self.plan.number(self.start, LENGTH) as usize
    }

    // Nothing else stands there.
    pub fn is_alone(&self) -> bool
        ensures { result ≡ alone (query_lent self.now) }
    {
        !self.plan.is_free(self.start)
            && self.taken() == self.plan.number(self.start, LENGTH) as usize
    }

    // A section of the plan that is a destination, and one of its ends.
    pub fn destination_end(&self, s: u32, e: u32) -> bool
        ensures { result ≡ destination_end (query_lent self.now) s e }
    {
        self.plan.has_section(s) && e <= 1 && self.plan.number(s, KIND) == 1
    }
}

// The train, its start and its finish: refusals 7 to 10, and what a walk takes from them. Every function takes any numbers.
#![tactic(auto)]

pub mod place;
pub mod room;

ghost use Rattle.std.specs.Prelude.{◌≡◌};
ghost use Rattle.rules.specs.Ranges.{between};
ghost use Rattle.rules.specs.Refusals.{verdict};
ghost use Rattle.rules.specs.Refused.{verdict_in};
ghost use Rattle.rules.specs.Query.{start_good, finish_good, train_checks};
ghost use Rattle.train.specs.Asked.{query_lent};

use plan::Plan;
use rules::refusal::Refusal;

// What is asked of a search or of a sheet: a train of this length leaves the section `start` by its end `leave`, and enters the section
// `finish` by its end `enter`.
#[derive(Clone, Copy)]
pub struct Query<'a> {
    pub plan: Plan<'a>,
    pub length: u32,
    pub start: u32,
    pub leave: u32,
    pub finish: u32,
    pub enter: u32,
}

// The train's length is in range.
pub fn train_good(length: u32) -> bool
    ensures { result ≡ between 1 length 20000 }
{
    (1..=20000).contains(&length)
}

impl Query<'_> {
    // The train stands on a destination section and leaves by one of its ends.
    fn start_good(&self) -> bool
        ensures { result ≡ start_good (query_lent self.now) }
    {
        self.destination_end(self.start, self.leave) && self.stands()
    }

    // It enters a destination section by one of its ends, and not where it started.
    fn finish_good(&self) -> bool
        ensures { result ≡ finish_good (query_lent self.now) }
    {
        self.destination_end(self.finish, self.enter)
            && (self.start, self.leave) != (self.finish, self.enter)
    }

    // Refusals 7 to 10, in their order.
    pub fn check_train(&self) -> Result<(), Refusal>
        ensures { verdict_in result ≡ verdict (train_checks (query_lent self.now)) }
    {
        if !train_good(self.length) {
            return Err(Refusal::Length);
        }
        if !self.start_good() {
            return Err(Refusal::Start);
        }
        if !self.finish_good() {
            return Err(Refusal::Finish);
        }
        if self.finish_room() < self.length {
            return Err(Refusal::Room);
        }
        Ok(())
    }
}

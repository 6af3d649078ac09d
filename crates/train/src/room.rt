// The finish room.
ghost use Rattle.std.specs.Prelude.{◌≡◌};
ghost use Rattle.rules.specs.Query.{finish_room};
ghost use Rattle.train.specs.Asked.{query_lent};

use crate::Query;
use plan::read::LENGTH;

impl Query<'_> {
    // The length at the finish end that the train may use: on its own start section the whole length where it is alone.
    pub fn finish_room(&self) -> u32
        ensures { result ≡ finish_room (query_lent self.now) }
    {
        if self.start == self.finish && self.is_alone() {
            self.plan.number(self.finish, LENGTH)
        } else {
            self.plan.free_at(self.finish, self.enter)
        }
    }
}

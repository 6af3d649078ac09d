// A query that has passed its checks, with what is known of its yard.
ghost use Rattle.std.specs.Prelude.{◌≡◌};

use train::Query;
use turns::{Turn, Yard};

// The query, the sections at each point, and its forbidden turn.
#[derive(Clone, Copy)]
pub struct Trip<'a> {
    pub query: Query<'a>,
    pub slots: &'a [u32; 2304],
    pub turns: &'a [Option<Turn>; 768],
}

impl<'a> Trip<'a> {
    // The yard in which the trip goes.
    pub fn yard(&self) -> Yard<'a>
        ensures plan { result.plan ≡ self.now.query.plan }
        ensures slots { result.slots ≡ self.now.slots }
        ensures turns { result.turns ≡ self.now.turns }
    {
        Yard {
            plan: self.query.plan,
            slots: self.slots,
            turns: self.turns,
        }
    }
}

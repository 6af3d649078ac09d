// A checked plan with what is known of its points.
ghost use Rattle.std.specs.Prelude.{◌≡◌, ℕ, ◌<◌, length, get_or, ◌+◌, ◌*◌};
ghost use Rattle.turns.specs.Tables.{forbidden_by};

use plan::Plan;
use plan::slots::{slot_at, slots_of};

// A forbidden turn, by its two sections. It holds both ways.
#[derive(Clone, Copy, Debug, PartialEq, Eq)]
pub struct Turn {
    pub first: u32,
    pub second: u32,
}

// The plan, the sections at each point, and the one forbidden turn that it may have, so that no search has to look through all.
#[derive(Clone, Copy)]
pub struct Yard<'a> {
    pub plan: Plan<'a>,
    pub slots: &'a [u32; 2304],
    pub turns: &'a [Option<Turn>; 768],
}

impl Yard<'_> {
    // The three slots of point p.
    pub fn slots_of(&self, p: u32) -> &[u32]
        requires { p < 768 }
        ensures long { length result.now ≡ 3 }
        ensures each { (j : ℕ) → j < 3 → get_or result.now j 0 ≡ get_or self.now.slots.now (3 * p + j) 0 }
    {
        slots_of(self.slots, p)
    }

    // What stands in slot j of point p.
    pub fn slot_at(&self, p: u32, j: u32) -> u32
        requires point { p < 768 }
        requires slot { j < 3 }
        ensures { result ≡ get_or self.now.slots.now (3 * p + j) 0 }
    {
        slot_at(self.slots, p, j)
    }

    // The turn from section h to section e is forbidden at point p.
    pub fn is_forbidden(&self, p: u32, h: u32, e: u32) -> bool
        requires { p < 768 }
        ensures { result ≡ forbidden_by self.now.turns.now p h e }
    {
        let Some(turn) = self.turns[p as usize] else {
            return false;
        };
        (turn.first, turn.second) == (h, e) || (turn.first, turn.second) == (e, h)
    }
}

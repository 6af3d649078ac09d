// Which sections each point has: three slots a point, filled in ascending order.
ghost use Rattle.std.specs.Prelude.{◌≡◌, ℕ, ◌+◌, ◌*◌, ◌<◌, length, get_or, set};
ghost use Rattle.plan.specs.Ends.{Joined, AtMostThree, Slots, no_slots, counted};

use crate::degree::count_up;
use crate::read::{END_A, END_B, Plan};

// This stands in a slot with no section. No Option, which would double the table: who reads a slot asks anyway whether there is such a section.
pub const NO_SECTION: u32 = 4294967295;

// Puts section s into the next slot of point p.
fn place(slots: &mut [u32; 2304], filled: &mut [u32; 768], p: u32, s: u32)
    requires point { p < 768 }
    requires room { get_or filled.old p 0 < 3 }
    ensures placed { slots.new ≡ set slots.old (3 * p + get_or filled.old p 0) s }
    ensures filled { filled.new ≡ counted filled.old p }
{
    let at = p as usize;
    let next = filled[at] as usize;
    slots[3 * at + next] = s;
    count_up(filled, p);
}

impl Plan<'_> {
    // Puts the sections at each point into slots that hold none, where no point has over three.
    pub(crate) fn index_into(&self, slots: &mut [u32; 2304])
        requires joined { Joined self.now.sections.now }
        requires three { AtMostThree self.now.sections.now }
        requires empty { slots.old ≡ no_slots }
        ensures { Slots self.now.sections.now slots.new }
    {
        let mut filled = [0; 768];
        for s in 0..self.section_count() {
            let a = self.number(s, END_A);
            let b = self.number(s, END_B);
            place(slots, &mut filled, a, s);
            place(slots, &mut filled, b, s);
        }
    }

    // The sections at each point, where no point has over three.
    pub fn index(&self) -> [u32; 2304]
        requires joined { Joined self.now.sections.now }
        requires three { AtMostThree self.now.sections.now }
        ensures { Slots self.now.sections.now result }
    {
        let mut slots = [NO_SECTION; 2304];
        self.index_into(&mut slots);
        slots
    }
}

// The three slots of point p.
pub fn slots_of(slots: &[u32; 2304], p: u32) -> &[u32]
    requires { p < 768 }
    ensures long { length result.now ≡ 3 }
    ensures each { (j : ℕ) → j < 3 → get_or result.now j 0 ≡ get_or slots.now (3 * p + j) 0 }
{
    let first = 3 * p as usize;
    &slots[first..first + 3]
}

// What stands in slot j of point p.
pub fn slot_at(slots: &[u32; 2304], p: u32, j: u32) -> u32
    requires point { p < 768 }
    requires slot { j < 3 }
    ensures { result ≡ get_or slots.now (3 * p + j) 0 }
{
    slots[3 * p as usize + j as usize]
}

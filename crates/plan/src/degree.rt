// How many sections each point has, and refusal 4.
ghost use Rattle.std.specs.Prelude.{◌≡◌, true, ◌↔◌, ℕ, ◌≤◌, ◌<◌, get_or};
ghost use Rattle.plan.specs.Ends.{Joined, Degrees, counted, degree_bad_by};
ghost use Rattle.plan.specs.Lent.{First};

use crate::read::{END_A, END_B, Plan};

// One more at point p.
pub(crate) fn count_up(table: &mut [u32; 768], p: u32)
    requires point { p < 768 }
    requires room { get_or table.old p 0 < 4294967295 }
    ensures { table.new ≡ counted table.old p }
{
    table[p as usize] += 1;
}

impl Plan<'_> {
    // How many sections each point has.
    pub fn degrees(&self) -> [u32; 768]
        requires { Joined self.now.sections.now }
        ensures { Degrees self.now.sections.now result }
    {
        let mut table = [0; 768];
        for s in 0..self.section_count() {
            count_up(&mut table, self.number(s, END_A));
            count_up(&mut table, self.number(s, END_B));
        }
        table
    }

    // The first point that has no section or over three.
    pub(crate) fn first_bad_degree(&self, degrees: &[u32; 768]) -> Option<u32>
        requires { self.now.points ≤ 768 }
        ensures { First (degree_bad_by degrees.now) self.now.points result }
    {
        (0..self.points).find(|p| !(1..=3).contains(&degrees[*p as usize]))
    }
}

// No point has over three sections. It counts instead of stopping at the first, so that many points are looked at at once, and in 32 bits, which
// `count` does not.
pub(crate) fn at_most_three(degrees: &[u32; 768]) -> bool
    ensures { (result ≡ true) ↔ ((p : ℕ) → p < 768 → get_or degrees.now p 0 ≤ 3) }
{
    let mut over: u32 = 0;
    for degree in degrees {
        over += u32::from(3 < *degree);
    }
    over == 0
}

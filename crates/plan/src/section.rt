// What a section's numbers say of it: whether it is free, where it ends, and what another section shares with it.
ghost use Rattle.std.specs.Prelude.{◌≡◌};
ghost use Rattle.rules.specs.Plan.{is_free, to_point, touches, far, free_from, same_ends, shared_point};
ghost use Rattle.plan.specs.Lent.{plan_lent};

use crate::read::{END_A, END_B, FREE_A, FREE_B, LENGTH, Plan};

impl Plan<'_> {
    // Nothing stands on section s.
    pub fn is_free(&self, s: u32) -> bool
        ensures { result ≡ is_free (plan_lent self.now) s }
    {
        let whole = self.number(s, LENGTH);
        self.number(s, FREE_A) == whole && self.number(s, FREE_B) == whole
    }

    // The point to which an arrival comes.
    pub fn to_point(&self, arrival: u32) -> u32
        ensures { result ≡ to_point (plan_lent self.now) arrival }
    {
        self.number(arrival / 2, arrival % 2)
    }

    // The point p is an end of section s.
    pub fn touches(&self, s: u32, p: u32) -> bool
        ensures { result ≡ touches (plan_lent self.now) s p }
    {
        self.number(s, END_A) == p || self.number(s, END_B) == p
    }

    // The other end of section s, entered at its end p.
    pub fn far_end(&self, s: u32, p: u32) -> u32
        ensures { result ≡ far (plan_lent self.now) s p }
    {
        if self.number(s, END_A) == p {
            self.number(s, END_B)
        } else {
            self.number(s, END_A)
        }
    }

    // The free length of section s from its end p.
    pub fn free_from(&self, s: u32, p: u32) -> u32
        ensures { result ≡ free_from (plan_lent self.now) s p }
    {
        if self.number(s, END_A) == p {
            self.number(s, FREE_A)
        } else {
            self.number(s, FREE_B)
        }
    }

    // Sections s and r join the same two points.
    pub fn same_ends(&self, s: u32, r: u32) -> bool
        ensures { result ≡ same_ends (plan_lent self.now) s r }
    {
        self.touches(s, self.number(r, END_A)) && self.touches(s, self.number(r, END_B))
    }

    // A point that sections s and r share: the end A of s where r has it too, else the end B.
    pub fn shared_point(&self, s: u32, r: u32) -> u32
        ensures { result ≡ shared_point (plan_lent self.now) s r }
    {
        let a = self.number(s, END_A);
        if self.touches(r, a) {
            a
        } else {
            self.number(s, END_B)
        }
    }
}

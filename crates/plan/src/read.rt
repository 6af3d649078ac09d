// A plan as it is lent, and the numbers of its sections and turns. Outside its table a number is 0, so no reader asks anything of its caller.
ghost use Rattle.std.specs.Prelude.{◌≡◌, ◌<◌, ltb, get_or};
ghost use Rattle.rules.specs.Plan.{section_count, turn_count, field, free_at, turn_section};
ghost use Rattle.plan.specs.Lent.{plan_lent};

// A section's six numbers, in their order.
pub const END_A: u32 = 0;

pub const END_B: u32 = 1;

pub const LENGTH: u32 = 2;

pub const KIND: u32 = 3;

pub const FREE_A: u32 = 4;

pub const FREE_B: u32 = 5;

// A section's two kinds.
pub const CONNECTING: u32 = 0;

pub const DESTINATION: u32 = 1;

// How many points there are, six numbers for each section, and two for each turn. C lends the two tables as they are, so columns, kinds and
// ends (0 = A, 1 = B) are numbers of theirs and no enums.
#[derive(Clone, Copy)]
pub struct Plan<'a> {
    pub points: u32,
    pub sections: &'a [u32],
    pub turns: &'a [u32],
}

// The number that stands at an index.
fn number_at(table: &[u32], at: usize) -> u32
    ensures { result ≡ get_or table.now at 0 }
{
    table.get(at).copied().unwrap_or(0)
}

impl Plan<'_> {
    // Number k of section s.
    pub fn number(&self, s: u32, k: u32) -> u32
        ensures { result ≡ field (plan_lent self.now) s k }
    {
        number_at(self.sections, 6 * s as usize + k as usize)
    }

    // The free length of section s from its end e (0 = A, 1 = B).
    pub fn free_at(&self, s: u32, e: u32) -> u32
        ensures { result ≡ free_at (plan_lent self.now) s e }
    {
        number_at(self.sections, 6 * s as usize + (4 + e as usize))
    }

    // Number k of turn t: its first section, or its second.
    pub fn turn_number(&self, t: u32, k: u32) -> u32
        ensures { result ≡ turn_section (plan_lent self.now) t k }
    {
        number_at(self.turns, 2 * t as usize + k as usize)
    }

    // How many sections the table holds.
    pub fn section_count(&self) -> u32
        requires { section_count (plan_lent self.now) < 4294967296 }
        ensures { result ≡ section_count (plan_lent self.now) }
    {
        (self.sections.len() / 6) as u32
    }

    // How many turns the table holds.
    pub fn turn_count(&self) -> u32
        requires { turn_count (plan_lent self.now) < 4294967296 }
        ensures { result ≡ turn_count (plan_lent self.now) }
    {
        (self.turns.len() / 2) as u32
    }

    // There is a section of this number. Its last number is tested, so that a compiler knows the others to be inside too.
    pub fn has_section(&self, s: u32) -> bool
        ensures { result ≡ ltb s (section_count (plan_lent self.now)) }
    {
        6 * s as usize + 5 < self.sections.len()
    }
}

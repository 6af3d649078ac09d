// The points that a run has passed.
ghost use Rattle.std.specs.Prelude.{◌≡◌, true, false, [], ◌∷◌, ◌++◌};
ghost use Rattle.std.specs.List.{Contains};
ghost use Rattle.reversal.specs.Passed.{points_of};

// The first `count` of these points. No ArrayVec of the kit, which is no plainer: `add` would make the same two tests, and the library that C
// links would rest on a crate from outside for it.
#[derive(Drop)]
pub struct Passed {
    pub points: [u32; 64],
    pub count: usize,
}

impl Passed {
    // The point p alone.
    pub(crate) fn start(p: u32) -> Passed
        ensures { points_of result ≡ p ∷ [] }
    {
        Passed {
            points: [p; 64],
            count: 1,
        }
    }

    // Puts q at the end, unless it is among them or there is no place for it.
    #[inline(always)]
    pub(crate) fn add(&mut self, q: u32) -> bool
        ensures new { result ≡ true → Contains (points_of self.old) q → ⊥ }
        ensures added { result ≡ true → points_of self.new ≡ points_of self.old ++ (q ∷ []) }
        ensures kept { result ≡ false → points_of self.new ≡ points_of self.old }
    {
        let count = self.count;
        if self.points.len() <= count || self.points[..count].contains(&q) {
            return false;
        }
        self.points[count] = q;
        self.count = count + 1;
        true
    }
}

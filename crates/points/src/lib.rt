// Sets of points: one bit for each of the 768 points, in 24 words of 32. What other crates know of a set is its members.
#![tactic(auto)]

ghost use Rattle.std.specs.Prelude.{◌≡◌, true, ◌≤◌, ◌<◌, ◌↔◌, length};
ghost use Rattle.points.specs.Points.{member, Empty, Put, Taken, Added, Narrow, Among, kept, Loaded, Saved};

use rules::copy::copy_into;

// A set of points.
#[derive(Clone, Copy)]
pub struct Points {
    words: [u32; 24],
}

impl Points {
    // The set without a point.
    pub fn none() -> Self
        ensures { Empty result }
    {
        Points { words: [0; 24] }
    }

    // The point p is in the set.
    pub fn has(&self, p: u32) -> bool
        requires { p < 768 }
        ensures { result ≡ member self.now p }
    {
        let word = self.words[(p >> 5) as usize];
        (word >> (p & 31)) & 1 == 1
    }

    // Puts the point p into the set.
    pub fn put(&mut self, p: u32)
        requires { p < 768 }
        ensures { Put self.old p self.new }
    {
        self.words[(p >> 5) as usize] |= 1 << (p & 31);
    }

    // Takes the point p out of the set.
    pub fn take(&mut self, p: u32)
        requires { p < 768 }
        ensures { Taken self.old p self.new }
    {
        self.words[(p >> 5) as usize] &= !(1 << (p & 31));
    }

    // Adds the points of another set.
    pub fn add(&mut self, more: &Points)
        ensures { Added self.old more.now self.new }
    {
        // by index, since an invariant has no name for the slice behind a `zip`
        for (i, word) in self.words.iter_mut().enumerate() {
            *word |= more.words[i];
        }
    }

    // So many words, from the first on, hold all points of the set.
    pub fn width(&self) -> usize
        ensures { Narrow self.now result }
    {
        self.words
            .iter()
            .rposition(|word| *word != 0)
            .map_or(0, |n| n + 1)
    }

    // Every point of the set whose first words these are is in this set.
    pub fn has_all(&self, saved: &[u32]) -> bool
        requires { length saved.now ≤ 24 }
        ensures { result ≡ true ↔ Among (kept saved.now) (member self.now) }
    {
        self.words
            .iter()
            .zip(saved)
            .all(|(word, more)| *more | *word == *word)
    }

    // Puts the points of the set whose first words these are into a set without a point.
    pub fn load(&mut self, saved: &[u32])
        requires empty { Empty self.old }
        requires few { length saved.now ≤ 24 }
        ensures { Loaded saved.now self.new }
    {
        copy_into(saved, &mut self.words[..saved.len()]);
    }

    // Fills a place with the first words of the set.
    pub fn save(&self, place: &mut [u32])
        requires { length place.old ≤ 24 }
        ensures { Saved self.now place.old place.new }
    {
        copy_into(&self.words[..place.len()], place);
    }
}

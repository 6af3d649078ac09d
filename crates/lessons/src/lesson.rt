// Lessons, as the table keeps them: what one says, and the four of a point.
ghost use Rattle.std.specs.Prelude.{◌≡◌, true, ◌<◌, IfSome};
ghost use Rattle.std.specs.Option.{IsSomeAnd};
ghost use Rattle.points.specs.Points.{member};
ghost use Rattle.lessons.specs.Table.{Teaches, lesson_in, words_of};

use points::Points;

// A train that came over this section gets no further than `most`, for the reasons that the first `words` words keep: a count, since a try
// compares them one by one, mostly two of the 24.
#[derive(Clone, Copy, Default)]
pub struct Lesson {
    pub(crate) most: u32,
    pub(crate) over: u16,
    pub(crate) words: u16,
    pub(crate) reasons: [u32; 24],
}

// What the table has of one point: its lessons, and the place that the next one takes.
#[derive(Clone, Copy)]
pub struct Row {
    pub(crate) next: u32,
    pub(crate) lessons: [Option<Lesson>; 4],
}

impl Lesson {
    // The lesson is one of the arrival over section h, it allows less than is left, and all its reasons have marks.
    fn teaches(&self, h: u32, marks: &Points, left: u32) -> bool
        ensures { result ≡ true → Teaches self.now h (member marks.now) left }
    {
        u32::from(self.over) == h && self.most < left && marks.has_all(self.kept())
    }

    // The words of its reasons.
    pub(crate) fn kept(&self) -> &[u32]
        ensures { result.now ≡ words_of self.now }
    {
        &self.reasons[..(self.words as usize).min(24)]
    }
}

impl Row {
    // No lesson.
    pub const NOTHING: Row = Row {
        next: 0,
        lessons: [None; 4],
    };

    // The first lesson that teaches the try.
    pub(crate) fn lesson_for(&self, h: u32, marks: &Points, left: u32) -> Option<usize>
        ensures { IfSome result (λ j. (j < 4) × IsSomeAnd (lesson_in self.now j) (λ lesson. Teaches lesson h (member marks.now) left)) }
    {
        self.lessons.iter().position(
            |found| matches!(found, Some(lesson) if lesson.teaches(h, marks, left)),
        )
    }
}

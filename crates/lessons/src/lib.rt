// Lessons that a search for a pull-out learns from its failures, in a table that is lent to it: a row for each point. A point past the
// table's end has no lessons, so that a table of any length will do.
#![tactic(auto)]

mod lesson;

ghost use Rattle.std.specs.Prelude.{◌<◌};
ghost use Rattle.points.specs.Points.{Empty, member};
ghost use Rattle.lessons.specs.Table.{Recalled, Wrote};

pub use lesson::Row;
use points::Points;

// What the lessons of the arrival over section h at p tell a try with these marks and this length left: it gets no further than
// the answer, and `why` are the reasons.
pub fn recall(
    memo: &mut [Row],
    h: u32,
    p: u32,
    marks: &Points,
    left: u32,
    why: &mut Points,
) -> Option<u32>
    requires { Empty why.old }
    ensures { Recalled h p (member marks.now) left memo.old why.old result memo.new why.new }
{
    let p = p as usize;
    if memo.len() <= p {
        return None;
    }
    let row = &memo[p];
    let which = row.lesson_for(h, marks, left)?;
    let lesson = row.lessons[which].as_ref()?;
    let most = lesson.most;
    why.load(lesson.kept());
    memo[p].next = which as u32 + 1;
    Some(most)
}

// Keeps a lesson of the arrival over section h at p, in the place after the one that was of use last.
pub fn keep(memo: &mut [Row], h: u32, p: u32, most: u32, why: &Points)
    requires { h < 1024 }
    ensures { Wrote h p most why.now memo.old memo.new }
{
    let p = p as usize;
    if memo.len() <= p {
        return;
    }
    let row = &mut memo[p];
    let place = row.next % 4;
    row.next = place + 1;
    let words = why.width();
    // the memory of a lesson is written over, and no more of it than the words that count
    let lesson = row.lessons[place as usize].get_or_insert_default();
    lesson.most = most;
    lesson.over = h as u16;
    lesson.words = words as u16;
    why.save(&mut lesson.reasons[..words]);
}

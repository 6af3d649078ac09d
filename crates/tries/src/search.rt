// The search for the first pull-out: trying a point tries its sections, trying a section tries its far point. The marks of the
// points passed go along with each try, so the number of unmarked points falls. A point that is tried in vain leaves a lesson, by
// which later tries end at once; each try has a set of its own for its reasons, which is lent to the next.
ghost use Rattle.std.specs.Prelude.{◌≡◌, ◌+◌, ◌<◌, length, IfErr};
ghost use Rattle.points.specs.Points.{Among, member, Empty};
ghost use Rattle.turns.specs.Tables.{Ready, Arrived};
ghost use Rattle.lessons.specs.Limit.{AnyList};
ghost use Rattle.tries.specs.Marks.{marked, unmarked};
ghost use Rattle.tries.specs.Tried.{Heads, Over, Tried};
ghost use Rattle.tries.specs.Serves.{Seeks, FailsFor, Taught, SameLent};

use crate::look::{Look, look_at};
use crate::marks::Try;
use lessons::{Row, keep, recall};
use points::Points;
use turns::Serving;

// A search for a turn, with the table of its lessons and the list that is lent to it.
#[derive(Drop)]
pub(crate) struct Search<'a> {
    pub(crate) serving: &'a Serving<'a>,
    pub(crate) memo: &'a mut [Row],
    pub(crate) out: &'a mut [u32; 768],
}

impl Search<'_> {
    // Tries the point p, come there over section h: its sections in ascending order. What is found is written from place d on, and
    // the try is told the place after it; else how far it gets, and the reasons.
    #[cycle(try_point_try_section)]
    pub(crate) fn try_point(
        &mut self,
        why: &mut Points,
        t: Try,
        h: u32,
        p: u32,
        d: usize,
    ) -> Result<usize, u32>
        requires ready { Ready self.old.serving.now.yard.now }
        requires long { length self.old.out.now ≡ 768 }
        requires arrived { Arrived self.old.serving.now.yard.now.plan.sections.now h p }
        requires taught { Taught self.old.serving.now self.old.memo.now }
        requires empty { Empty why.old }
        requires some { 0 < t.left }
        requires room { d + unmarked t < 768 }
        ensures same { SameLent self.old self.new }
        ensures tried { Tried (Seeks self.old.serving.now t h p) self.old.out.now d result self.new.out.now }
        ensures fails { IfErr result (λ most. FailsFor self.old.serving.now t h p AnyList why.old why.new most) }
        ensures taught { Taught self.old.serving.now self.new.memo.now }
    {
        if let Some(most) = recall(self.memo, h, p, &t.marks, t.left, why) {
            return Err(most);
        }
        let mut most = 0;
        let slots = self.serving.yard.slots_of(p);
        for &e in slots {
            match self.try_section(why, t, h, p, e, d) {
                Ok(end) => return Ok(end),
                Err(n) => most = most.max(n),
            }
        }
        keep(self.memo, h, p, most, why);
        Err(most)
    }

    // Tries section e at the point p: by itself, or on from its far point. Its reasons are added to those of the sections before.
    #[cycle(try_point_try_section)]
    fn try_section(
        &mut self,
        why: &mut Points,
        mut t: Try,
        h: u32,
        p: u32,
        e: u32,
        d: usize,
    ) -> Result<usize, u32>
        requires ready { Ready self.old.serving.now.yard.now }
        requires long { length self.old.out.now ≡ 768 }
        requires arrived { Arrived self.old.serving.now.yard.now.plan.sections.now h p }
        requires taught { Taught self.old.serving.now self.old.memo.now }
        requires reasons { Among (member why.old) (marked t) }
        requires some { 0 < t.left }
        requires room { d + unmarked t < 768 }
        ensures same { SameLent self.old self.new }
        ensures tried { Tried (Over (Seeks self.old.serving.now t h p) e) self.old.out.now d result self.new.out.now }
        ensures fails { IfErr result (λ most. FailsFor self.old.serving.now t h p (Heads e) why.old why.new most) }
        ensures taught { Taught self.old.serving.now self.new.memo.now }
    {
        match look_at(self.serving, &t, h, p, e) {
            Look::Shut(n) => Err(n),
            Look::Met { point, length } => {
                why.put(point);
                Err(length)
            }
            Look::Last => {
                self.out[d] = e;
                Ok(d + 1)
            }
            Look::On { point, length } => {
                t.marks.put(point);
                t.left -= length;
                let mut beyond = Points::none();
                match self.try_point(&mut beyond, t, e, point, d + 1) {
                    Ok(end) => {
                        self.out[d] = e;
                        Ok(end)
                    }
                    Err(most) => {
                        // the try's own mark at its point is no reason for what lies before it
                        beyond.take(point);
                        why.add(&beyond);
                        Err(length + most)
                    }
                }
            }
        }
    }
}

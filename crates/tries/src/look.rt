// A look at one section: what it is to a try.
ghost use Rattle.std.specs.Prelude.{◌<◌};
ghost use Rattle.turns.specs.Tables.{Ready, Arrived};
ghost use Rattle.tries.specs.Serves.{LookedFor};

use crate::marks::Try;
use turns::Serving;

// Shut: no train gets further on it than this length. Met: its far point has a mark, so none gets further than its length. Last: it takes
// what is left. On: the train goes on to its far point, over its length.
#[derive(Clone, Copy, Debug, PartialEq, Eq)]
pub enum Look {
    Shut(u32),
    Met { point: u32, length: u32 },
    Last,
    On { point: u32, length: u32 },
}

// The look at section e by a try that has come over section h to p. It makes the tests of reversal's `glance`, but a try must know why a
// section is shut and how far it gets there, where a glance is for what costs little.
pub(crate) fn look_at(serving: &Serving, t: &Try, h: u32, p: u32, e: u32) -> Look
    requires ready { Ready serving.now.yard.now }
    requires arrived { Arrived serving.now.yard.now.plan.sections.now h p }
    requires some { 0 < t.now.left }
    ensures { LookedFor serving.now t.now h p e result }
{
    if !serving.may_enter(h, p, e) {
        return Look::Shut(0);
    }
    let plan = &serving.yard.plan;
    let length = plan.free_from(e, p);
    if t.left <= length {
        return Look::Last;
    }
    if !plan.is_free(e) {
        return Look::Shut(length);
    }
    let point = plan.far_end(e, p);
    if t.marks.has(point) {
        return Look::Met { point, length };
    }
    Look::On { point, length }
}

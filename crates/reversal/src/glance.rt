// A glance at one section: what it is to a pull-out, whatever points have been passed.
ghost use Rattle.std.specs.Prelude.{◌≡◌, ◌<◌};
ghost use Rattle.turns.specs.Tables.{Ready, Arrived};
ghost use Rattle.reversal.specs.Glanced.{Starts, CameTo, Glanced, Seen};

use plan::read::LENGTH;
use turns::Serving;

// A train that is pulled out has come over section `over` to the point `at`, where the length `left` is left.
#[derive(Clone, Copy, Debug, PartialEq, Eq)]
pub struct Position {
    pub over: u32,
    pub at: u32,
    pub left: u32,
}

impl Position {
    // Where the turn begins: at the end p of the section that the train came over, with its whole length left.
    pub(crate) fn start(serving: &Serving, p: u32, length: u32) -> Self
        requires arrived { Arrived serving.now.yard.now.plan.sections.now serving.now.from p }
        requires some { 0 < length }
        ensures starts { Starts serving.now result }
        ensures point { result.at ≡ p }
        ensures whole { result.left ≡ length }
    {
        Position {
            over: serving.from,
            at: p,
            left: length,
        }
    }
}

// What a section is from there: not to be entered; the last; or one to go on over, to where it leads.
#[derive(Clone, Copy, Debug, PartialEq, Eq)]
pub enum Ahead {
    Shut,
    Last,
    On(Position),
}

// What section e is.
pub(crate) fn glance(serving: &Serving, from: &Position, e: u32) -> Ahead
    requires ready { Ready serving.now.yard.now }
    requires came { CameTo serving.now from.now }
    ensures { Glanced serving.now from.now e result }
{
    let plan = &serving.yard.plan;
    if !serving.may_enter(from.over, from.at, e) {
        return Ahead::Shut;
    }
    if from.left <= plan.free_from(e, from.at) {
        return Ahead::Last;
    }
    if !plan.is_free(e) {
        return Ahead::Shut;
    }
    let at = plan.far_end(e, from.at);
    let length = plan.number(e, LENGTH);
    Ahead::On(Position {
        over: e,
        at,
        left: from.left - length,
    })
}

// What the first section at the point is that is not shut.
pub(crate) fn straight_on(serving: &Serving, from: &Position) -> Ahead
    requires ready { Ready serving.now.yard.now }
    requires came { CameTo serving.now from.now }
    ensures { Seen serving.now from.now result }
{
    for &e in serving.yard.slots_of(from.at) {
        let ahead = glance(serving, from, e);
        if ahead != Ahead::Shut {
            return ahead;
        }
    }
    Ahead::Shut
}

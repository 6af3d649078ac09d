// One try for a pull-out: the marks of the points passed, and the length that is left.
ghost use Rattle.std.specs.Prelude.{◌<◌};
ghost use Rattle.tries.specs.Marks.{Begun};

use points::Points;

// It goes along with each step of a try as a copy, so that a try that comes back has nothing to undo.
#[derive(Clone, Copy)]
pub struct Try {
    pub(crate) marks: Points,
    pub left: u32,
}

impl Try {
    // The first try, from point p, for the length n.
    pub(crate) fn first(p: u32, n: u32) -> Self
        requires { p < 768 }
        ensures { Begun p n result }
    {
        let mut marks = Points::none();
        marks.put(p);
        Try { marks, left: n }
    }
}

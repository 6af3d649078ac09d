// Running through a pull-out, section by section, with the points passed in a list: straight on, or along a guess. A run that comes to
// its end is a pull-out; one that fails says nothing.
ghost use Rattle.std.specs.Prelude.{ℕ, ◌≡◌, true, ◌<◌};
ghost use Rattle.turns.specs.Tables.{Ready};
ghost use Rattle.reversal.specs.Reverses.{CanReverse};
ghost use Rattle.reversal.specs.Glanced.{Starts, CameTo, Seen};

use crate::glance::{Ahead, Position, glance, straight_on};
use crate::passed::Passed;
use turns::Serving;

// A run of at most 64 sections comes to its end, by what is seen ahead at each step from where the train stands.
fn run<F: Fn(usize, &Position) -> Ahead>(serving: &Serving, start: &Position, ahead: F) -> bool
    requires starts { Starts serving.now start.now }
    requires looks { (i : ℕ) (from : _) → i < 64 → CameTo serving.now from.now → F.pre ahead i from }
    requires tells { (i : ℕ) (from : _) (seen : _) → CameTo serving.now from.now → F.post ahead i from seen → Seen serving.now from.now seen }
    ensures { result ≡ true → CanReverse serving.now start.now.at start.now.left true }
{
    let mut passed = Passed::start(start.at);
    let mut train = *start;
    for i in 0..64 {
        match ahead(i, &train) {
            Ahead::Shut => return false,
            Ahead::Last => return true,
            Ahead::On(to) => {
                if !passed.add(to.at) {
                    return false;
                }
                train = to;
            }
        }
    }
    false
}

// The list begins with a pull-out for the train that stands at the start.
pub(crate) fn follow(serving: &Serving, start: &Position, list: &[u32; 64]) -> bool
    requires ready { Ready serving.now.yard.now }
    requires starts { Starts serving.now start.now }
    ensures { result ≡ true → CanReverse serving.now start.now.at start.now.left true }
{
    run(serving, start, |i, from| glance(serving, from, list[i]))
}

// There is a pull-out straight on: by the first section at each point that is not shut.
pub(crate) fn runs_out(serving: &Serving, start: &Position) -> bool
    requires ready { Ready serving.now.yard.now }
    requires starts { Starts serving.now start.now }
    ensures { result ≡ true → CanReverse serving.now start.now.at start.now.left true }
{
    run(serving, start, |_, from| straight_on(serving, from))
}

// A guess at a pull-out: depth first and without marks, so that it costs little, and may pass a point twice. Guessing at a point guesses
// at its sections, guessing at a section guesses at the point to which it leads; each section takes one off the budget.
ghost use Rattle.turns.specs.Tables.{Ready};
ghost use Rattle.tries.specs.Tried.{Over};
ghost use Rattle.reversal.specs.Glanced.{CameTo, TakesFrom};
ghost use Rattle.reversal.specs.Guessed.{Guessed};

use crate::glance::{Ahead, Position, glance};
use turns::Serving;

// A guess from a point on, its sections in the list. It ends with a guess, too long for the list, or with the budget spent, and the answer
// is None. Else there is nothing, and the answer is what is left of the budget.
#[cycle(guess_point_guess_section)]
pub(crate) fn guess_point(
    serving: &Serving,
    from: &Position,
    budget: u32,
    list: &mut [u32],
) -> Option<u32>
    requires ready { Ready serving.now.yard.now }
    requires came { CameTo serving.now from.now }
    ensures { Guessed (TakesFrom serving.now from.now) budget result }
{
    let mut left = budget;
    for &e in serving.yard.slots_of(from.at) {
        left = guess_section(serving, from, e, left, list)?;
    }
    Some(left)
}

// The same over section e, which takes one off the budget.
#[cycle(guess_point_guess_section)]
fn guess_section(
    serving: &Serving,
    from: &Position,
    e: u32,
    budget: u32,
    list: &mut [u32],
) -> Option<u32>
    requires ready { Ready serving.now.yard.now }
    requires came { CameTo serving.now from.now }
    ensures { Guessed (Over (TakesFrom serving.now from.now) e) budget result }
{
    let (first, rest) = list.split_first_mut()?;
    if budget == 0 {
        return None;
    }
    *first = e;
    let left = budget - 1;
    match glance(serving, from, e) {
        Ahead::Shut => Some(left),
        Ahead::Last => None,
        Ahead::On(to) => guess_point(serving, &to, left, rest),
    }
}

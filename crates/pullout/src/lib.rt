// The pull-out of one reversal: refusals 1 to 7, 15, 16 and 14, and the first pull-out.
#![tactic(auto)]

mod asked;

ghost use Rattle.std.specs.Prelude.{◌≡◌};
ghost use Rattle.rules.specs.Refusals.{verdict, passed};
ghost use Rattle.rules.specs.PullAnswer.{pull_checks, PullAnswer};
ghost use Rattle.pullout.specs.Asked.{reversal_lent, Prepared};
ghost use Rattle.pullout.specs.Answer.{numbers_of};

use plan::Plan;
use plan::slots::NO_SECTION;
use rules::copy::copy_into;
use rules::refusal::Refusal;
use tries::first_pull_out;
use turns::turn_table::turn_table;
use turns::{Serving, Yard};

// What is asked: a train of this length has come by this arrival and has to go on over this section.
#[derive(Clone, Copy)]
pub struct Reversal<'a> {
    pub plan: Plan<'a>,
    pub length: u32,
    pub arrival: u32,
    pub section: u32,
}

impl Reversal<'_> {
    // Refusals 16 and 14, where all else has passed.
    fn find(&self, yard: &Yard, list: &mut [u32]) -> Result<u32, Refusal>
        requires prepared { Prepared self.now yard.now }
        requires passes { verdict (pull_checks (reversal_lent self.now)) ≡ passed }
        ensures { PullAnswer (reversal_lent self.now) list.old (numbers_of result list.new) }
    {
        let serving = Serving {
            yard,
            from: self.arrival / 2,
            onto: self.section,
        };
        let mut found = [0; 768];
        let Some(count) = first_pull_out(&serving, self.point(), self.length, &mut found) else {
            return Err(Refusal::NoPullOut);
        };
        if list.len() < count {
            return Err(Refusal::Buffer);
        }
        copy_into(&found[..count], &mut list[..count]);
        Ok(count as u32)
    }
}

// The first pull-out for it goes into the front of the list, and the answer is how many sections it has: any numbers, any lengths of the
// tables and of the list.
pub fn pull_out(asked: &Reversal, list: &mut [u32]) -> Result<u32, Refusal>
    ensures { PullAnswer (reversal_lent asked.now) list.old (numbers_of result list.new) }
{
    let mut slots = [NO_SECTION; 2304];
    asked.plan.check_and_index(&mut slots)?;
    let turns = turn_table(&asked.plan);
    let yard = Yard {
        plan: asked.plan,
        slots: &slots,
        turns: &turns,
    };
    asked.check_asked(&yard)?;
    asked.find(&yard, list)
}

// The sheet checker. A sheet claims a shortest walk, or that there is no route, and gives a label for each arrival as evidence. The checker
// never looks for a walk: it makes the table of steps and compares the sheet with it, but for a sheet that has nothing to compare
// (nothing.rt). What it accepts is right, whoever wrote the labels:
// an accepted list is a shortest admissible walk, and an accepted "no route" means that none exists. And what is right it accepts: the
// remaining distances with any shortest walk, or with "no route" where there is none, with the walk's own numbers as the answer. Both
// halves follow from the contract of `check_sheet`: proofs/Demand.antt has them as `accepted_is_shortest` and `accepted_no_route`,
// `shortest_is_accepted` and `no_route_is_accepted`. So the search's own answer is accepted (`search_is_accepted`).
#![tactic(auto)]

mod claim;
mod nothing;
mod rule;
mod tables;
mod walk;

ghost use Rattle.std.specs.Prelude.{Ok};
ghost use Rattle.train.specs.Asked.{query_lent};
ghost use Rattle.sheet.specs.Lent.{sheet_lent, ReadyFor};
ghost use Rattle.sheet.specs.Checking.{SheetPasses};
ghost use Rattle.sheet.specs.Answer.{Judges};

use plan::slots::NO_SECTION;
use rules::refusal::Refusal;
use rules::route::Route;
use steps::{Trip, check_query};
use tables::check_over_steps;
use train::Query;
use turns::turn_table::turn_table;

// A sheet as it is lent: the claim (0 no route, 1 walk), the list of arrivals, and a label for each arrival of the plan. The claim is any
// number, since it comes through the C interface.
#[derive(Clone, Copy)]
pub struct Sheet<'a> {
    pub claim: u32,
    pub list: &'a [u32],
    pub labels: &'a [u32],
}

// What is answered to a sheet that passes.
fn accept(trip: &Trip, sheet: &Sheet) -> Option<Route>
    requires ready { ReadyFor trip.now sheet.now }
    requires passes { SheetPasses (query_lent trip.now.query) (sheet_lent sheet.now) }
    ensures { Judges (query_lent trip.now.query) (sheet_lent sheet.now) (Ok result) }
{
    if sheet.claim == 0 {
        return None;
    }
    Some(trip.route(sheet.list, sheet.labels))
}

// Judges a sheet of a query: any numbers, any lengths of the tables, of the list and of the labels. An accepted list is answered by its
// numbers, an accepted "no route" by none. A total never wraps: the sum of a list's costs stops at "none", and a list that costs so much
// has no label that matches.
pub fn check_sheet(query: &Query, sheet: &Sheet) -> Result<Option<Route>, Refusal>
    ensures { Judges (query_lent query.now) (sheet_lent sheet.now) result }
{
    let mut slots = [NO_SECTION; 2304];
    check_query(query, sheet.labels.len(), &mut slots)?;
    let turns = turn_table(&query.plan);
    let trip = Trip {
        query: *query,
        slots: &slots,
        turns: &turns,
    };
    check_over_steps(&trip, sheet)?;
    Ok(accept(&trip, sheet))
}

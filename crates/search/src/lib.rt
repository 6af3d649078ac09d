// The search: refusals 1 to 14, and the first shortest walk with every remaining distance.
//
// What is proved of `search`, for all numbers and all lengths of the tables and buffers that it is lent (the names are of theorems
// about its contract, in crates/rules/proofs/SearchDemands.antt and SearchAnswers.antt):
// - It ends with an answer, and there is one answer that its contract allows, both buffers included (answer_unique).
// - A walk handed out is admissible (handed_out_walk), no admissible walk is shorter (handed_out_shortest), and of the shortest ones it
//   is the first by section numbers (handed_out_first). Its total, its reversals and its steps are those of the list in the route
//   buffer (handed_out_numbers).
// - Number 12 is given exactly when none of 1 to 11 applies and there is no admissible walk (twelve_none, none_twelve); 13 never
//   (never_13).
// - With a walk and with number 12 each label is the remaining distance of its arrival, or "none" (labels_right). All else that was
//   lent is as it was: the rest of the route buffer with a walk, the whole of it with 12, and both buffers with every other refusal.
#![tactic(auto)]

mod solve;
mod write;

ghost use Rattle.std.specs.Prelude.{length};
ghost use Rattle.rules.specs.Search.{Answer};
ghost use Rattle.train.specs.Asked.{query_lent, Accepted};
ghost use Rattle.steps.specs.Listing.{Ready};
ghost use Rattle.search.specs.Solved.{Solvable};
ghost use Rattle.search.specs.Answer.{result_of};

use plan::slots::NO_SECTION;
use rules::NO_DISTANCE;
use rules::copy::copy_into;
use rules::refusal::Refusal;
use rules::route::Route;
use solve::solve;
use steps::{Trip, check_query};
use train::Query;
use turns::turn_table::turn_table;
use write::write_walk;

// Refusals 12 and 14 and the walk, where 1 to 11 do not apply. Number 13 never applies, since a shortest walk meets no arrival twice.
fn find_route(
    trip: &Trip,
    known: &mut [u32],
    walk: &mut [u32],
    route: &mut [u32],
    labels: &mut [u32],
) -> Result<Route, Refusal>
    requires ready { Ready trip.now }
    requires accepted { Accepted (query_lent trip.now.query) (length labels.old) }
    requires lent { Solvable (query_lent trip.now.query) known.old walk.old }
    ensures { Answer (query_lent trip.now.query) route.old labels.old (result_of result route.new labels.new) }
{
    let Some(steps) = solve(trip, known, walk) else {
        copy_into(known, labels);
        return Err(Refusal::NoRoute);
    };
    write_walk(trip, known, &walk[..steps], route, labels)
}

// The first shortest walk of what is asked: any numbers, any lengths of the tables and of the buffers.
pub fn search(query: &Query, route: &mut [u32], labels: &mut [u32]) -> Result<Route, Refusal>
    ensures { Answer (query_lent query.now) route.old labels.old (result_of result route.new labels.new) }
{
    let mut slots = [NO_SECTION; 2304];
    check_query(query, labels.len(), &mut slots)?;
    let turns = turn_table(&query.plan);
    let trip = Trip {
        query: *query,
        slots: &slots,
        turns: &turns,
    };
    let mut known = [NO_DISTANCE; 2048];
    let mut walk = [0; 2048];
    let count = labels.len();
    find_route(&trip, &mut known[..count], &mut walk, route, labels)
}

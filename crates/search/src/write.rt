// What is written with a walk, and refusal 14.
ghost use Rattle.std.specs.Prelude.{length};
ghost use Rattle.rules.specs.Plan.{arrivals};
ghost use Rattle.rules.specs.Query.{start_arrival};
ghost use Rattle.rules.specs.Net.{FirstShortest};
ghost use Rattle.rules.specs.Trip.{query_net};
ghost use Rattle.rules.specs.Search.{Answer};
ghost use Rattle.distance.specs.Answer.{Labels};
ghost use Rattle.plan.specs.Lent.{plan_lent};
ghost use Rattle.train.specs.Asked.{query_lent, Accepted};
ghost use Rattle.steps.specs.Listing.{Ready};
ghost use Rattle.search.specs.Answer.{result_of};

use rules::copy::copy_into;
use rules::refusal::Refusal;
use rules::route::Route;
use steps::Trip;

// The walk and the labels are handed out, if the route buffer holds the walk.
pub fn write_walk(
    trip: &Trip,
    known: &[u32],
    walk: &[u32],
    route: &mut [u32],
    labels: &mut [u32],
) -> Result<Route, Refusal>
    requires ready { Ready trip.now }
    requires accepted { Accepted (query_lent trip.now.query) (length labels.old) }
    requires known { Labels (query_net (query_lent trip.now.query)) (arrivals (plan_lent trip.now.query.plan)) known.now }
    requires first { FirstShortest (query_net (query_lent trip.now.query)) (start_arrival (query_lent trip.now.query)) walk.now }
    ensures { Answer (query_lent trip.now.query) route.old labels.old (result_of result route.new labels.new) }
{
    if route.len() < walk.len() {
        return Err(Refusal::Buffer);
    }
    let numbers = trip.route(walk, known);
    copy_into(walk, &mut route[..walk.len()]);
    copy_into(known, labels);
    Ok(numbers)
}

// The queries of a yard, a line each.
ghost use Rattle.std.specs.Prelude.{◌≤◌, length};

use plan::Plan;
use search::search;
use std::io;
use train::Query;

// One query, to the end of its line, with room for the longest walk and a label for each arrival.
fn answer_query(rt: &impl Print, query: &Query) -> io::Result<()>
    requires { length query.now.plan.sections.now ≤ 6144 }
{
    let mut route = [0; 2048];
    let mut labels = [0; 2048];
    let count = 2 * (query.plan.sections.len() / 6);
    match search(query, &mut route, &mut labels[..count]) {
        Ok(found) => {
            print!(rt; " ROUTE {} {}", found.total, found.reversals)?;
            for arrival in route.iter().take(found.steps as usize) {
                print!(rt; " {arrival}")?;
            }
            println!(rt)
        }
        Err(refusal) => println!(rt; " REFUSED {refusal}"),
    }
}

// All queries, in their order, numbered from 1.
pub(crate) fn answer_queries(rt: &impl Print, plan: Plan, queries: &[u32]) -> io::Result<()>
    requires { length plan.sections.now ≤ 6144 }
{
    for (i, numbers) in queries.chunks_exact(5).enumerate() {
        let &[length, start, leave, finish, enter] = numbers else {
            unreachable!()
        };
        let query = Query {
            plan,
            length,
            start,
            leave,
            finish,
            enter,
        };
        print!(rt; "{}", i + 1)?;
        answer_query(rt, &query)?;
    }
    Ok(())
}

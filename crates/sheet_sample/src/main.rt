// Checks sample sheets of yard Y, right and wrong ones, and says of each that it was accepted or which refusal it got and where.
#![tactic(auto)]

ghost use Rattle.std.specs.Prelude.{◌<◌};

use plan::Plan;
use rules::NO_DISTANCE;
use rules::route::Route;
use search::search;
use sheet::{Sheet, check_sheet};
use std::io;
use train::Query;

// Yard Y of document 01: six points, five sections, and the turn between sections 1 and 2.
const SECTIONS: [u32; 30] = [
    0, 1, 3000, 1, 3000, 3000, 1, 2, 400, 0, 400, 400, 1, 3, 500, 0, 500, 500, 2, 4, 2000, 1, 100,
    1300, 3, 5, 2500, 1, 2500, 2500,
];

// The remaining distances on the way from (3, 0) to (4, 0), for a train of 600.
const LABELS: [u32; 10] = [
    NO_DISTANCE,
    3000,
    3600,
    NO_DISTANCE,
    NO_DISTANCE,
    2500,
    4000,
    NO_DISTANCE,
    NO_DISTANCE,
    NO_DISTANCE,
];

// What is said of an accepted "no route".
const NO_ROUTE: Route = Route {
    total: 0,
    reversals: 0,
    steps: 0,
};

// What a sheet is, and what is answered to it.
fn judge(rt: &impl Print, name: &str, query: &Query, sheet: &Sheet) -> io::Result<()> {
    match check_sheet(query, sheet) {
        Ok(accepted) => {
            let route = accepted.unwrap_or(NO_ROUTE);
            println!(rt;
                "{name}: accepted, total {}, reversals {}, steps {}",
                route.total, route.reversals, route.steps
            )
        }
        Err(refusal) => println!(rt;
            "{name}: refused {} at {}",
            refusal.number(),
            refusal.place()
        ),
    }
}

// The walk with one of its labels changed.
fn with(rt: &impl Print, name: &str, query: &Query, at: usize, label: u32) -> io::Result<()>
    requires { at < 10 }
{
    let mut labels = LABELS;
    labels[at] = label;
    let sheet = Sheet {
        claim: 1,
        list: &[2, 5],
        labels: &labels,
    };
    judge(rt, name, query, &sheet)
}

// What the search writes, where a walk has two steps.
fn searched(rt: &impl Print, name: &str, query: &Query) -> io::Result<()> {
    let mut route = [0; 2];
    let mut labels = [0; 10];
    let found = search(query, &mut route, &mut labels).is_ok();
    let sheet = Sheet {
        claim: u32::from(found),
        list: if found { &route } else { &[] },
        labels: &labels,
    };
    judge(rt, name, query, &sheet)
}

fn main(rt: HostRuntime) -> io::Result<()> {
    let plan = Plan {
        points: 6,
        sections: &SECTIONS,
        turns: &[1, 2],
    };
    let query = Query {
        plan,
        length: 600,
        start: 3,
        leave: 0,
        finish: 4,
        enter: 0,
    };
    let back = Query {
        finish: 3,
        enter: 1,
        ..query
    };
    let walk = Sheet {
        claim: 1,
        list: &[2, 5],
        labels: &LABELS,
    };
    let no_route = Sheet {
        claim: 0,
        list: &[],
        labels: &LABELS,
    };
    judge(&rt, "the walk", &query, &walk)?;
    with(&rt, "label 2 as 3601", &query, 2, 3601)?;
    with(&rt, "label 2 as 3599", &query, 2, 3599)?;
    with(&rt, "label 6 as 3999", &query, 6, 3999)?;
    judge(&rt, "no route", &query, &no_route)?;
    judge(
        &rt,
        "no route, with a list",
        &query,
        &Sheet { claim: 0, ..walk },
    )?;
    judge(
        &rt,
        "a walk that ends too early",
        &query,
        &Sheet { list: &[2], ..walk },
    )?;
    judge(&rt, "claim 2", &query, &Sheet { claim: 2, ..walk })?;
    judge(
        &rt,
        "nine labels",
        &query,
        &Sheet {
            labels: &LABELS[..9],
            ..walk
        },
    )?;
    searched(&rt, "what the search writes to (4, 0)", &query)?;
    searched(&rt, "what the search writes to (3, 1)", &back)
}

// Searches sample yards, and says of each query the walk that was found or which refusal it got and where.
#![tactic(auto)]

mod yards;

ghost use Rattle.std.specs.Prelude.{◌<◌};

use plan::Plan;
use search::search;
use std::io;
use train::Query;
use yards::{BRANCHES, LINE, LOOP, PAPER, PAPER_TURNS, TWO_WAYS, YARD_Y};

// A line's numbers, and its end.
fn numbers(rt: &impl Print, list: &[u32]) -> io::Result<()> {
    for number in list {
        print!(rt; " {number}")?;
    }
    println!(rt)
}

// One query, with as many labels as the lent buffer has.
fn ask(rt: &impl Print, text: &str, query: &Query, labels: &mut [u32]) -> io::Result<()> {
    let mut route = [0; 16];
    match search(query, &mut route, labels) {
        Ok(found) => {
            print!(rt;
                "{text}: total {}, reversals {}, arrivals",
                found.total, found.reversals
            )?;
            let steps = route.len().min(found.steps as usize);
            numbers(rt, &route[..steps])
        }
        Err(refusal) => println!(rt;
            "{text}: refused {} at {}",
            refusal.number(),
            refusal.place()
        ),
    }
}

// A query of a train of 600 from (3, 0) to (4, 0) over a yard of yard Y's points and turns.
fn over_yard_y(sections: &[u32; 30]) -> Query {
    Query {
        plan: Plan {
            points: 6,
            sections,
            turns: &[1, 2],
        },
        length: 600,
        start: 3,
        leave: 0,
        finish: 4,
        enter: 0,
    }
}

// Yard Y, for a train of this length from (3, 0) to this finish.
fn yard_y(rt: &impl Print, text: &str, length: u32, finish: u32, enter: u32) -> io::Result<()> {
    let query = Query {
        length,
        finish,
        enter,
        ..over_yard_y(&YARD_Y)
    };
    ask(rt, text, &query, &mut [0; 10])
}

// Yard Y with other free lengths of one section, from (3, 0) to (4, 0). The table is flat, as the C interface lends it.
fn stocked(rt: &impl Print, text: &str, section: usize, from_a: u32, from_b: u32) -> io::Result<()>
    requires { section < 5 }
{
    let mut sections = YARD_Y;
    sections[6 * section + 4] = from_a;
    sections[6 * section + 5] = from_b;
    ask(rt, text, &over_yard_y(&sections), &mut [0; 10])
}

// Yard Y's labels, on the way to (4, 0), and with a buffer that is one short.
fn labels_of_yard_y(rt: &impl Print) -> io::Result<()> {
    let query = over_yard_y(&YARD_Y);
    let mut labels = [0; 10];
    ask(rt, "yard Y", &query, &mut labels)?;
    print!(rt; "its labels:")?;
    numbers(rt, &labels)?;
    ask(rt, "yard Y, nine labels", &query, &mut [0; 9])
}

fn small_yards(rt: &impl Print) -> io::Result<()> {
    labels_of_yard_y(rt)?;
    stocked(rt, "section 0 free 2000 and 600", 0, 2000, 600)?;
    stocked(rt, "section 0 free 2000 and 599", 0, 2000, 599)?;
    stocked(rt, "section 4 free 600 and 0", 4, 600, 0)?;
    stocked(rt, "section 4 free 599 and 0", 4, 599, 0)?;
    yard_y(rt, "length 601", 601, 4, 0)?;
    yard_y(rt, "length 0", 0, 4, 0)?;
    yard_y(rt, "length 20001", 20001, 4, 0)?;
    yard_y(rt, "finish (3, 0)", 600, 3, 0)?;
    yard_y(
        rt,
        "finish (3, 1), an end over the finish section itself",
        600,
        3,
        1,
    )?;
    let query = Query {
        plan: Plan {
            points: 3,
            sections: &LINE,
            turns: &[],
        },
        length: 200,
        start: 0,
        leave: 1,
        finish: 1,
        enter: 0,
    };
    ask(rt, "three points", &query, &mut [0; 4])
}

// Document 003's Example 3: in metres 0 + 40 + (20 + 34) + 280 + 34 + (20 + 41) + 39 = 508.
fn example_3(rt: &impl Print) -> io::Result<()> {
    let mut sections = PAPER;
    sections[6 * 4 + 4] = 390;
    sections[6 * 4 + 5] = 0;
    let query = Query {
        plan: Plan {
            points: 22,
            sections: &sections,
            turns: &PAPER_TURNS,
        },
        length: 200,
        start: 4,
        leave: 1,
        finish: 4,
        enter: 0,
    };
    ask(rt, "Example 3", &query, &mut [0; 48])
}

// An error planners have met: the better of two arrivals at a point is the one that can't go on.
fn by_point(rt: &impl Print) -> io::Result<()> {
    let query = Query {
        plan: Plan {
            points: 6,
            sections: &TWO_WAYS,
            turns: &[1, 2, 1, 4],
        },
        length: 1000,
        start: 0,
        leave: 1,
        finish: 5,
        enter: 0,
    };
    ask(rt, "one distance per point", &query, &mut [0; 12])
}

// A pull-out that bends round the loop would come onto the section by which the train must leave.
fn round_the_loop(rt: &impl Print, text: &str, length: u32) -> io::Result<()> {
    let query = Query {
        plan: Plan {
            points: 7,
            sections: &LOOP,
            turns: &[1, 2, 3, 5],
        },
        length,
        start: 4,
        leave: 0,
        finish: 6,
        enter: 0,
    };
    ask(rt, text, &query, &mut [0; 14])
}

// The first pull-out that is tried is too short, the next is long enough.
fn next_pull_out(rt: &impl Print) -> io::Result<()> {
    let query = Query {
        plan: Plan {
            points: 8,
            sections: &BRANCHES,
            turns: &[1, 2, 4, 5],
        },
        length: 600,
        start: 0,
        leave: 1,
        finish: 6,
        enter: 0,
    };
    ask(rt, "the first pull-out too short", &query, &mut [0; 14])
}

fn main(rt: HostRuntime) -> io::Result<()> {
    small_yards(&rt)?;
    example_3(&rt)?;
    by_point(&rt)?;
    round_the_loop(&rt, "as long as the loop's pull-out", 600)?;
    round_the_loop(&rt, "longer than the loop's pull-out", 601)?;
    next_pull_out(&rt)
}

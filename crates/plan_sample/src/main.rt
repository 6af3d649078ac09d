// Checks sample plans, and says of each that it passed or which refusal it got and where.
#![tactic(auto)]

ghost use Rattle.std.specs.Prelude.{◌<◌};

use plan::Plan;
use std::io;

// Yard Y of document 01: six points, five sections, and the turn between sections 1 and 2.
const SECTIONS: [u32; 30] = [
    0, 1, 3000, 1, 3000, 3000, 1, 2, 400, 0, 400, 400, 1, 3, 500, 0, 500, 500, 2, 4, 2000, 1, 100,
    1300, 3, 5, 2500, 1, 2500, 2500,
];

fn answer(rt: &impl Print, what: &str, plan: Plan) -> io::Result<()> {
    match plan.check() {
        Ok(()) => println!(rt; "{what}: passed"),
        Err(refusal) => {
            println!(rt;
                "{what}: refused {} at {}",
                refusal.number(),
                refusal.place()
            )
        }
    }
}

// Yard Y with one number of its table of sections changed.
fn with(rt: &impl Print, what: &str, at: usize, value: u32) -> io::Result<()>
    requires { at < 30 }
{
    let mut sections = SECTIONS;
    sections[at] = value;
    let plan = Plan {
        points: 6,
        sections: &sections,
        turns: &[1, 2],
    };
    answer(rt, what, plan)
}

// Yard Y with another number of points and other turns.
fn by(rt: &impl Print, what: &str, points: u32, turns: &[u32]) -> io::Result<()> {
    let plan = Plan {
        points,
        sections: &SECTIONS,
        turns,
    };
    answer(rt, what, plan)
}

fn main(rt: HostRuntime) -> io::Result<()> {
    by(&rt, "yard Y", 6, &[1, 2])?;
    by(&rt, "yard Y with 769 points", 769, &[1, 2])?;
    with(&rt, "yard Y, section 1 with length 0", 8, 0)?;
    with(&rt, "yard Y, section 2 from point 2 to point 1", 13, 2)?;
    by(&rt, "yard Y with a seventh point", 7, &[1, 2])?;
    by(&rt, "yard Y, a turn onto destination 3", 6, &[1, 3])?;
    by(&rt, "yard Y, its turn named twice", 6, &[1, 2, 2, 1])
}

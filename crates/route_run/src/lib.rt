// The route program: a yard file in, document 01's lines out. What stands in the lines comes from the proved crates; how they are
// written is compared with stored outputs.
#![tactic(auto)]

mod input;
mod query;

ghost use Rattle.std.specs.Prelude.{◌≤◌, length};

use input::read_full;
use plan::Plan;
use query::answer_queries;
use std::io::{self, Input};
use yardfile::read_yard;

// The lines of a yard, of e sections and t turns.
fn report_yard(rt: &impl Print, plan: Plan, e: u32, t: u32, queries: &[u32]) -> io::Result<()>
    requires { length plan.sections.now ≤ 6144 }
{
    match plan.check() {
        Err(refusal) => println!(rt; "REFUSED {refusal}"),
        Ok(()) => {
            println!(rt; "YARD {} {e} {t}", plan.points)?;
            answer_queries(rt, plan, queries)
        }
    }
}

// The lines of a file. A file holds no more than the tables do, so nothing is ever cut off.
fn report(rt: &impl Print, file: &[u8]) -> io::Result<()> {
    let mut sections = [0; 6144];
    let mut turns = [0; 1536];
    let mut queries = [0; 1280];
    match read_yard(file, &mut sections, &mut turns, &mut queries) {
        Err(refusal) => println!(rt; "FILE {refusal}"),
        Ok(counts) => {
            let s = (6 * counts.sections as usize).min(6144);
            let t = (2 * counts.turns as usize).min(1536);
            let q = (5 * counts.queries as usize).min(1280);
            let plan = Plan {
                points: counts.points,
                sections: &sections[..s],
                turns: &turns[..t],
            };
            report_yard(rt, plan, counts.sections, counts.turns, &queries[..q])
        }
    }
}

// Reads standard input to its end or to 65,536 bytes: what stands beyond changes no answer, since a file without a fault is shorter.
pub fn run(rt: &(impl Input + Print)) -> io::Result<()> {
    let mut buffer = [0; 65536];
    let n = read_full(&mut rt.reader(), &mut buffer)?;
    report(rt, &buffer[..n])
}

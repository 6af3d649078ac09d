// Runs the route program on the largest plan.
#![tactic(auto)]

use std::io;

fn main(rt: HostRuntime) -> io::Result<()> {
    route_run::run(&rt)
}

// Runs the route program on a turn after a query.
#![tactic(auto)]

use std::io;

fn main(rt: HostRuntime) -> io::Result<()> {
    route_run::run(&rt)
}

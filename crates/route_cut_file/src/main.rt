// Runs the route program on a file whose last field is cut short.
#![tactic(auto)]

use std::io;

fn main(rt: HostRuntime) -> io::Result<()> {
    route_run::run(&rt)
}

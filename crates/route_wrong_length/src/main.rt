// Runs the route program on a turn of six bytes.
#![tactic(auto)]

use std::io;

fn main(rt: HostRuntime) -> io::Result<()> {
    route_run::run(&rt)
}

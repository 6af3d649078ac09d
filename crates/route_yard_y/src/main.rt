// Runs the route program on yard Y with both queries of document 01.
#![tactic(auto)]

use std::io;

fn main(rt: HostRuntime) -> io::Result<()> {
    route_run::run(&rt)
}

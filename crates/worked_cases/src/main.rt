// The worked figures of document 01, run: ★A to ★E for schedulers, F to I and the next cycle for a gate, ★J, ★K and the coupling figure for a
// meter, and ★L for traffic classes.
#![tactic(auto)]

mod gates;
mod meters;
mod schedulers;

use std::io;

fn main(rt: HostRuntime) -> io::Result<()> {
    schedulers::print(&rt)?;
    gates::print(&rt)?;
    meters::print(&rt)
}

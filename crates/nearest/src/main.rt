// Reads tasks, one a line, and prints the nearest point or the best word of each.
#![tactic(auto)]

mod found;
mod lines;
mod names;
mod sets;

use lines::respond;
use std::io;

fn main(rt: HostRuntime) -> anyhow::Result<()> {
    let heap = rt.alloc();
    for line in rt.lines(heap) {
        rt.println(respond(heap, line?.as_str())?)?;
    }
    Ok(())
}

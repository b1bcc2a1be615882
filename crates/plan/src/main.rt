// The planner at a terminal: reads rules from standard input, a line each, and writes what they allow.
#![tactic(auto)]

use plan_text::report::on_line;
use std::io;
use std::io::{BufRead, BufReader};

fn main(rt: HostRuntime) -> io::Result<()> {
    let heap = rt.alloc();
    let lines = BufReader::new(heap, rt.stdin())?.split(heap, b'\n');
    for (line, text) in (1u64..).zip(lines) {
        if let Some(report) = on_line(heap, line, text?.as_slice())? {
            rt.print(report)?;
        }
    }
    Ok(())
}

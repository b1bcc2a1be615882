// Shows the packets of a stream, a line for each.
#![tactic(auto)]

mod input;
mod line;

use input::{Ending, next_packet};
use line::line_of;
use packets::MAX_PACKET;
use refusals::Refusal;
use std::io;

fn main(rt: HostRuntime) -> io::Result<()> {
    let mut input = rt.stdin();
    let mut packet = [0; MAX_PACKET];
    // A count, and no `while let`: nothing bounds how many packets an input has.
    for _ in 0..u64::MAX {
        match next_packet(&mut input, &mut packet) {
            Ok(Some(size)) => {
                let line = line_of(rt.alloc(), &packet[..size])?;
                println!(rt; "{line}")?;
            }
            Ok(None) => break,
            Err(Ending::Io(error)) => return Err(error),
            Err(ending) => {
                let n = Refusal::BrokenLayout.number();
                println!(rt; "refused {n}: {ending}")?;
                break;
            }
        }
    }
    Ok(())
}

// Packets taken from a stream, one at a time.
ghost use Rattle.std.specs.Prelude.{◌≤◌, length, IfOk};
ghost use Rattle.packetdump.specs.Input.{HeadOf, Sized};

use packets::{MAX_PACKET, packet_size};
use std::io;
use std::io::Read;
use thiserror::Error;

// Why a stream cannot be read further.
#[derive(Debug, Drop, Error)]
pub(crate) enum Ending {
    // a size that no packet has
    #[error("a size is no multiple of 4 from 4 to 4096")]
    Size,
    // the end inside a size
    #[error("the stream ends inside a size")]
    InSize,
    // the end inside a packet
    #[error("the stream ends inside a packet")]
    InPacket,
    // what the system says
    #[error(transparent)]
    Io(#[from] io::Error),
}

// The size that four bytes are, or `None` where the stream ended in front of them.
fn head_of(bytes: &[u8]) -> Result<Option<usize>, Ending>
    ensures value { HeadOf bytes.now result }
{
    match bytes {
        [] => Ok(None),
        [a, b, c, d] => packet_size([*a, *b, *c, *d])
            .map(Some)
            .map_err(|_| Ending::Size),
        _ => Err(Ending::InSize),
    }
}

// Fills the buffer from the stream, and says how many bytes came before the stream ended.
// A buffer that is lent, and no `read_to_end`: a packet is read without memory of its own, in as few reads as it comes in.
fn fill<R: Read>(input: &mut R, buffer: &mut [u8]) -> io::Result<usize>
    ensures within { IfOk result (λ n. n ≤ length buffer.old) }
{
    let mut have = 0;
    while have < buffer.len() {
        let got = input.read(&mut buffer[have..])?;
        if got == 0 {
            break;
        }
        have += got;
    }
    Ok(have)
}

// Takes the next packet of the stream to the front of the buffer: how many bytes it has, or `None` behind the last packet.
pub(crate) fn next_packet<R: Read>(
    input: &mut R,
    buffer: &mut [u8; MAX_PACKET],
) -> Result<Option<usize>, Ending>
    ensures within { IfOk result Sized }
{
    let mut head = [0; 4];
    let got = fill(input, &mut head)?;
    let Some(size) = head_of(&head[..got])? else {
        return Ok(None);
    };
    if fill(input, &mut buffer[..size])? == size {
        Ok(Some(size))
    } else {
        Err(Ending::InPacket)
    }
}

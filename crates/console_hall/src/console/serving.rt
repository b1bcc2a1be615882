// What the console does with one packet.
ghost use Rattle.std.specs.Prelude.{◌≡◌, None, MatchResult};
ghost use Rattle.console_hall.specs.Making.{wanted};
ghost use Rattle.console_hall.specs.Serving.{hall_in, Made, Performed, Answered, Serves, Stopped};

use crate::console::Console;
use crate::entries::entries;
use crate::making::Making;
use crate::order::{Order, read_order};
use hall::call::Call;
use hall::parts::Hall;
use play::perform;
use play::reply::{Reply, Told, has_room, write_reply};
use refusals::Refusal;
use rig_kinds::script::ScriptRig;
use rules::count::CountRule;
use std::alloc::{AllocError, Global};
use words::gate::Gate;

// Why a packet is not served: the buffer is too short for every reply, or there is no memory for the script of a hall.
#[derive(Clone, Copy, PartialEq, Eq, Debug)]
pub enum Stop {
    NoRoom,
    NoMemory,
}

impl Console {
    // A console without a hall.
    pub fn new() -> Console
        ensures { hall_in result ≡ None }
    {
        Console { hall: None }
    }

    // Makes the hall, or refuses where there is one or the numbers make no rule. Where there is no memory nothing is made.
    fn make(&mut self, heap: Global, making: Making<'_>) -> Result<Reply, AllocError>
        ensures { MatchResult result (Made (wanted making.entry) (hall_in self.old) (hall_in self.new)) (λ _. hall_in self.new ≡ hall_in self.old) }
    {
        if self.hall.is_some() {
            return Ok(Err(Refusal::AlreadyMade));
        }
        // A refusal is a reply here and no error, so `?` serves the want of memory alone.
        match CountRule::new(making.n, making.t) {
            Ok(rule) => {
                let list = entries(heap, making.script)?;
                self.hall = Some(Hall::new(ScriptRig { list }, rule, making.rest));
                Ok(Ok(Told::Done))
            }
            Err(refusal) => Ok(Err(refusal)),
        }
    }

    // Makes a call on the hall, if there is one.
    fn call(&mut self, call: Call<Gate>, sheet: &mut [u16]) -> Reply
        ensures { Performed call (hall_in self.old) sheet.old (hall_in self.new) sheet.new result }
    {
        let hall = self.hall.as_mut().ok_or(Refusal::NotMade)?;
        perform(hall, call, sheet)
    }

    // What is replied to a packet, after what it asks for is done. Where there is no memory nothing is done.
    fn answer(
        &mut self,
        heap: Global,
        packet: &[u8],
        sheet: &mut [u16],
    ) -> Result<Reply, AllocError>
        ensures { MatchResult result (Answered packet.now (hall_in self.old) sheet.old (hall_in self.new) sheet.new) (λ _. (hall_in self.new ≡ hall_in self.old) × (sheet.new ≡ sheet.old)) }
    {
        // A refusal is a reply here and no error, as above.
        match read_order(packet) {
            Ok(Order::Make(making)) => self.make(heap, making),
            Ok(Order::Call(call)) => Ok(self.call(call, sheet)),
            Err(refusal) => Ok(Err(refusal)),
        }
    }

    // Does what the packet asks for and writes the reply with its size to the front of the buffer: how long both are. Where the buffer has under 28 bytes, or there is no memory for a script, nothing is changed at all.
    pub fn serve(
        &mut self,
        heap: Global,
        packet: &[u8],
        sheet: &mut [u16],
        out: &mut [u8],
    ) -> Result<usize, Stop>
        ensures { MatchResult result (Serves packet.now (hall_in self.old) sheet.old out.old (hall_in self.new) sheet.new out.new) (Stopped (hall_in self.old) sheet.old out.old (hall_in self.new) sheet.new out.new) }
    {
        if !has_room(out.len()) {
            return Err(Stop::NoRoom);
        }
        let reply = self
            .answer(heap, packet, sheet)
            .map_err(|_| Stop::NoMemory)?;
        write_reply(reply, out).map_err(|_| Stop::NoRoom)
    }
}

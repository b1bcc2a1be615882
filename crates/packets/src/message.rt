// A message that was found in a packet, and what is left to read of it.
ghost use Rattle.std.specs.Prelude.{◌≡◌, ◌+◌, List, [], ◌∷◌, map, length, MatchOption};
ghost use Rattle.packets.specs.Osc.{Value, tag};
ghost use Rattle.packets.specs.Read.{value, Left, left_count, Reads, Meaningless, Answers};

use super::fields::{
    Argument, behind_byte, cut_text, fit, read_argument, read_text, within_packet, zero_at,
};
use refusals::Refusal;

// A message, and the arguments of it that are still to be read.
#[derive(Clone, Copy)]
pub struct Message<'a> {
    address: &'a [u8],
    tags: &'a [u8],
    fields: &'a [u8],
}

impl<'a> Message<'a> {
    // The address, with its '/'.
    pub fn address(&self) -> &'a [u8]
        ensures value { result.now ≡ self.now.address.now }
    {
        self.address
    }

    // The type tags of the arguments that are still to be read, a letter for each.
    pub fn tags(&self) -> &'a [u8]
        ensures value { (vs : List Value) → Left self.now vs → result.now ≡ map tag vs }
        ensures len { length result.now ≡ left_count self.now }
    {
        self.tags
    }

    // The same message, with these type tags and fields still to be read.
    fn with_left(&self, tags: &'a [u8], rest: &'a [u8]) -> Message<'a>
        ensures same { result.address.now ≡ self.now.address.now }
        ensures left { (result.tags.now ≡ tags.now) × (result.fields.now ≡ rest.now) }
    {
        Message {
            address: self.address,
            tags,
            fields: rest,
        }
    }

    // The next argument, or `None` behind the last.
    pub fn next(&mut self) -> Option<Argument<&'a [u8]>>
        ensures value { (vs : List Value) → Left self.old vs → MatchOption result (vs ≡ []) (λ a. (ws : List Value) × ((vs ≡ value a ∷ ws) × Left self.new ws)) }
        ensures same { self.new.address.now ≡ self.old.address.now }
        ensures left { MatchOption result (left_count self.new ≡ left_count self.old) (λ _. left_count self.new + 1 ≡ left_count self.old) }
    {
        let [letter, tags @ ..] = self.tags else {
            return None;
        };
        let (argument, rest) = read_argument(*letter, self.fields)?;
        *self = self.with_left(tags, rest);
        Some(argument)
    }
}

// The message that a packet is an encoding of.
fn find_message<'a>(packet: &'a [u8]) -> Option<Message<'a>>
    ensures { MatchOption result (Meaningless packet.now) (Reads packet.now) }
{
    let rest = behind_byte(b'/', packet)?;
    within_packet(0, packet.len())?;
    let n = zero_at(rest)?;
    let (address, behind) = cut_text(packet, n + 1)?;
    let (list, fields) = read_text(behind)?;
    let tags = behind_byte(b',', list)?;
    fit(tags, fields).then_some(Message {
        address,
        tags,
        fields,
    })
}

// Reads a packet: its message, or the refusal where it has none.
pub fn read_message<'a>(packet: &'a [u8]) -> Result<Message<'a>, Refusal>
    ensures value { Answers packet.now result }
{
    find_message(packet).ok_or(Refusal::BrokenLayout)
}

// What a packet asks of the console: to make a hall, or a call on it.
ghost use Rattle.std.specs.Prelude.{◌≡◌, List, Decides};
ghost use Rattle.packets.specs.Osc.{Value};
ghost use Rattle.packets.specs.Read.{Left};
ghost use Rattle.words.specs.Gates.{gate_word};
ghost use Rattle.play.specs.Asks.{call_of};
ghost use Rattle.console_hall.specs.Making.{making_of};
ghost use Rattle.console_hall.specs.Orders.{make_address, as_making, as_call, order_in, Orders};

use crate::making::{Making, read_making};
use hall::call::Call;
use packets::{Message, read_message};
use play::asks::call_of;
use play::name::Name;
use refusals::Refusal;
use words::gate::Gate;

// A making, or a call.
#[derive(Clone, Copy)]
pub enum Order<'a> {
    Make(Making<'a>),
    Call(Call<Gate>),
}

// Whether a message to this address makes a hall.
fn is_make(address: &[u8]) -> bool
    ensures { Decides result (address.now ≡ make_address) }
{
    address == b"/hall/make".as_slice()
}

// The making that a message asks for.
fn make_order<'a>(message: Message<'a>) -> Result<Order<'a>, Refusal>
    ensures { (vs : List Value) → Left message.entry vs → order_in result ≡ as_making (making_of vs) }
{
    Ok(Order::Make(read_making(message)?))
}

// The call of this name that a message asks for.
fn call_order<'a>(name: Name, message: Message<'a>) -> Result<Order<'a>, Refusal>
    ensures { (vs : List Value) → Left message.entry vs → order_in result ≡ as_call (call_of gate_word name vs) }
{
    Ok(Order::Call(call_of(name, message)?))
}

// What a packet asks for, or its refusal.
pub fn read_order<'a>(packet: &'a [u8]) -> Result<Order<'a>, Refusal>
    ensures { Orders packet.now (order_in result) }
{
    let message = read_message(packet)?;
    if is_make(message.address()) {
        return make_order(message);
    }
    call_order(Name::try_from(message.address())?, message)
}

// The scene: a place in the lighting desk's memory.
ghost use Rattle.std.specs.Prelude.{◌<◌};

pub mod kind;

// A bank 0 to 15 and a slot 0 to 63.
#[derive(Clone, Copy, PartialEq, Eq, Debug)]
pub struct Scene {
    bank: u8,
    slot: u8,
    ghost bank_low: { bank < 16 },
    ghost slot_low: { slot < 64 },
}

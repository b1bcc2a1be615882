// The noise rig: broken speakers are heard as numbers made from a seed.
ghost use Rattle.rig_kinds.specs.Plain.{plain_wire, plain_trio};
ghost use Rattle.rig_kinds.specs.Noises.{noise_sound};
ghost use Rattle.rig_kinds.specs.PlainLines.{plain-bad, plain-kept, plain-mute, plain-spoken, plain-agreed};

use crate::plain::Sounds;
use rigs::keys::{TrioKey, WireKey};
use rigs::{Rig, Wire};

// A rig with a seed. A broken speaker is heard by all as a number made from its place and the seed.
#[derive(Clone, Copy)]
pub struct NoiseRig {
    pub seed: u32,
}

impl Sounds for NoiseRig {
    ghost sounds = { λ s. noise_sound s.seed };

    fn sound(&self, place: u32, _code: u16) -> u16 {
        let mixed = place.wrapping_add(self.seed).wrapping_mul(2654435761);
        (mixed / 65536) as u16
    }
}

// The wire and the trio line of script and noise stay two impls: one over `Sounds` would have to stand in `rigs`, where no kind of rig is defined.
impl Wire for NoiseRig {
    ghost carried = { λ s. plain_wire (noise_sound s.seed) };

    ghost bad = { λ w. plain-bad (noise_sound w.seed) };

    ghost kept = { λ w. plain-kept (noise_sound w.seed) };

    fn wire(&self, key: WireKey, code: u16, broken: u16) -> u16 {
        self.plain_wire(key, code, broken)
    }
}

impl Rig for NoiseRig {
    ghost heard = { λ s. plain_trio (noise_sound s.seed) };

    ghost mute = { λ r. plain-mute (noise_sound r.seed) };

    ghost spoken = { λ r. plain-spoken (noise_sound r.seed) };

    ghost agreed = { λ r. plain-agreed (noise_sound r.seed) };

    fn trio(&self, key: TrioKey, code: u16, broken: u16) -> (u16, u16, u16) {
        self.plain_trio(key, code, broken)
    }
}

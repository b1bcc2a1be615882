// The worked cases of rigs, as theorems on one contract, and tests on tables worked out by hand.
#![tactic(auto)]

ghost use Rattle.std.specs.Prelude.{◌≡◌, ◌+◌, ◌%◌, ◌^◌, if◌then◌else◌};
ghost use Rattle.rigs.specs.Keys.{good_wire};
ghost use Rattle.rigs.specs.Lines.{silence};
ghost use Rattle.rig_cases.specs.Worked.{WorkedRigs};

use rig_kinds::noise::NoiseRig;
use rigs::Wire;
use rigs::keys::WireKey;
use sets::all;

// The seed that makes 1 of a place, modulo 2^32.
fn seed_for(place: u32) -> u32
    ensures { (place + result) % 2 ^ 32 ≡ 1 }
{
    1u32.wrapping_sub(place)
}

// What a broken sender sounds like on the noise rig where place plus seed is 1; and the worked cases hold.
pub fn first_noise(key: WireKey, code: u16) -> u16
    ensures value { result ≡ (if good_wire key then 40503 else silence) }
    ensures cases { WorkedRigs }
{
    let rig = NoiseRig {
        seed: seed_for(key.place()),
    };
    rig.wire(key, code, all(16))
}

#[cfg(test)]
mod key_tests;
#[cfg(test)]
mod patch_tests;
#[cfg(test)]
mod rig_tests;

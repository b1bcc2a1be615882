// Everything that joins stations, as promises: wires, rigs with a trio line, and weak rigs with a torn line and a telling.
//
// A question is a key, a 16-bit code and the set of broken stations. Its answer depends on these and the rig alone, and the rig is unchanged.
#![tactic(auto)]

ghost use Rattle.std.specs.Prelude.{◌≡◌};
ghost use Rattle.rigs.specs.Lines.{Wires, Casts, Tellings};
ghost use Rattle.rigs.specs.Laws.{BadWire, Kept, Mute, Spoken, Agreed, Untorn, BadTelling, Passed};

pub mod keys;

use keys::{TrioKey, WireKey};

// Codes on a line are bare numbers by a rule of the project, and a trio cast answers a tuple of three.
// The code of no word.
pub const VOID: u16 = 65534;

// The code of nothing heard.
pub const SILENCE: u16 = 65535;

// What the three hear where none hears anything.
pub const SILENT: (u16, u16, u16) = (SILENCE, SILENCE, SILENCE);

// What carries a code from one station to another.
// A question's key, code and broken set stay three parameters: each law speaks of them one by one, and a struct of them would only be taken apart again.
pub trait Wire {
    // the code that arrives, for each key, code sent and broken set
    ghost carried: { Self → Wires };

    // The code that arrives.
    fn wire(&self, key: WireKey, code: u16, broken: u16) -> u16
        ensures { result ≡ carried self.now key code broken };

    // a bad key is answered by silence
    ghost bad: { (w : Self) → BadWire (carried w) };

    // on a good key, between two good stations, the code sent arrives
    ghost kept: { (w : Self) → Kept (carried w) };
}

// A wire with a trio line, on which one of three stations speaks to all three.
pub trait Rig: Wire {
    // what the three hear, for each key, code spoken and broken set
    ghost heard: { Self → Casts };

    // What each of the three hears, lowest station first.
    fn trio(&self, key: TrioKey, code: u16, broken: u16) -> (u16, u16, u16)
        ensures { result ≡ heard self.now key code broken };

    // a bad key is answered by three silences
    ghost mute: { (r : Self) → Mute (heard r) };

    // a good speaker is heard as spoken by every good station of the three
    ghost spoken: { (r : Self) → Spoken (heard r) };

    // all good stations of the three hear the same
    ghost agreed: { (r : Self) → Agreed (heard r) };
}

// A wire with a torn line, on which some may hear nothing, and a telling from one listener to the other.
pub trait WeakRig: Wire {
    // what the three hear, for each key, code spoken and broken set
    ghost torn: { Self → Casts };

    // the code that arrives at the other listener, for each trio key, teller, code told and broken set
    ghost told: { Self → Tellings };

    // What each of the three hears, lowest station first.
    fn cast(&self, key: TrioKey, code: u16, broken: u16) -> (u16, u16, u16)
        ensures { result ≡ torn self.now key code broken };

    // The code that arrives at the other listener when `teller` tells one.
    fn tell(&self, key: TrioKey, teller: u8, code: u16, broken: u16) -> u16
        ensures { result ≡ told self.now key teller code broken };

    // a bad key is answered by three silences
    ghost mute: { (r : Self) → Mute (torn r) };

    // a good speaker is heard as spoken by every good station of the three
    ghost spoken: { (r : Self) → Spoken (torn r) };

    // two good stations of the three hear the same, unless one of them hears silence
    ghost agreed: { (r : Self) → Untorn (torn r) };

    // a bad key of a telling is answered by silence
    ghost untold: { (r : Self) → BadTelling (told r) };

    // on a good key, between two good listeners, the code told arrives
    ghost passed: { (r : Self) → Passed (told r) };
}

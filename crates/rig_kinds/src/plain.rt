// Lines on which a good speaker is heard as spoken, and a broken one as some sound.
ghost use Rattle.std.specs.Prelude.{◌≡◌};
ghost use Rattle.sets.specs.Sets.{has};
ghost use Rattle.rig_kinds.specs.Plain.{Sound, heard_as, plain_wire, plain_trio, plain_told};

use rigs::keys::{TrioKey, WireKey};
use rigs::{SILENCE, SILENT};
use sets::contains;

// What a broken speaker is heard as, and the lines with this sound.
pub(crate) trait Sounds {
    // from the place of the key and the code spoken
    ghost sounds: { Self → Sound };

    // What a broken speaker is heard as, at a place and with a code spoken.
    fn sound(&self, place: u32, code: u16) -> u16
        ensures { result ≡ sounds self.now place code };

    // What the station `speaker` is heard as.
    final fn heard_as(&self, speaker: u8, place: u32, code: u16, broken: u16) -> u16
        ensures { result ≡ heard_as (sounds self.now) (has broken speaker) place code }
    {
        if contains(broken, speaker) {
            self.sound(place, code)
        } else {
            code
        }
    }

    // What arrives on a wire.
    final fn plain_wire(&self, key: WireKey, code: u16, broken: u16) -> u16
        ensures { result ≡ plain_wire (sounds self.now) key code broken }
    {
        if !key.is_good() {
            return SILENCE;
        }
        self.heard_as(key.from, key.place(), code, broken)
    }

    // What the three hear: all of them the same.
    final fn plain_trio(&self, key: TrioKey, code: u16, broken: u16) -> (u16, u16, u16)
        ensures { result ≡ plain_trio (sounds self.now) key code broken }
    {
        if !key.is_good() {
            return SILENT;
        }
        let heard = self.heard_as(key.speaker, key.place(key.speaker), code, broken);
        (heard, heard, heard)
    }

    // What arrives at the other listener when `teller` tells a code.
    final fn plain_tell(&self, key: TrioKey, teller: u8, code: u16, broken: u16) -> u16
        ensures { result ≡ plain_told (sounds self.now) key teller code broken }
    {
        if !key.tells(teller) {
            return SILENCE;
        }
        self.heard_as(teller, key.place(teller), code, broken)
    }
}

// The torn rig: a weak rig on which a broken speaker is not heard everywhere.
ghost use Rattle.std.specs.Prelude.{◌≡◌, ◌<◌};
ghost use Rattle.rig_kinds.specs.Plain.{plain_wire, plain_told};
ghost use Rattle.rig_kinds.specs.Scripts.{script_sound};
ghost use Rattle.rig_kinds.specs.Torn.{torn_at, torn_sound, torn_line};
ghost use Rattle.rig_kinds.specs.PlainLines.{plain-bad, plain-kept, told_bad, told_passed};
ghost use Rattle.rig_kinds.specs.TornLines.{torn_mute, torn_spoken, torn_agreed};

use crate::plain::Sounds;
use crate::script::ScriptRig;
use rigs::keys::{TrioKey, WireKey};
use rigs::{SILENCE, SILENT, WeakRig, Wire};
use sets::contains;

// A weak rig over a list of entries. Its wire and its telling use whole entries, as the script rig does.
#[derive(Drop)]
pub struct TornRig {
    pub script: ScriptRig,
}

// What is heard at position j of a broken speaker with entry e.
fn torn_at(e: u16, j: u8) -> u16
    requires { j < 3 }
    ensures { result ≡ torn_at e j }
{
    if contains(e, 13 + j) {
        SILENCE
    } else {
        e % 8192
    }
}

// What the three hear of a broken speaker with an entry, or with none.
fn torn_sound(entry: Option<u16>, code: u16) -> (u16, u16, u16)
    ensures { result ≡ torn_sound entry code }
{
    match entry {
        Some(e) => (torn_at(e, 0), torn_at(e, 1), torn_at(e, 2)),
        None => (code, code, code),
    }
}

impl Wire for TornRig {
    ghost carried = { λ s. plain_wire (script_sound s.script.list.items) };

    ghost bad = { λ w. plain-bad (script_sound w.script.list.items) };

    ghost kept = { λ w. plain-kept (script_sound w.script.list.items) };

    fn wire(&self, key: WireKey, code: u16, broken: u16) -> u16 {
        self.script.wire(key, code, broken)
    }
}

impl WeakRig for TornRig {
    ghost torn = { λ s. torn_line s.script.list.items };

    ghost told = { λ s. plain_told (script_sound s.script.list.items) };

    ghost mute = { λ r. torn_mute r.script.list.items };

    ghost spoken = { λ r. torn_spoken r.script.list.items };

    ghost agreed = { λ r. torn_agreed r.script.list.items };

    ghost untold = { λ r. told_bad (script_sound r.script.list.items) };

    ghost passed = { λ r. told_passed (script_sound r.script.list.items) };

    fn cast(&self, key: TrioKey, code: u16, broken: u16) -> (u16, u16, u16) {
        if !key.is_good() {
            return SILENT;
        }
        if contains(broken, key.speaker) {
            torn_sound(self.script.entry(key.place(key.speaker)), code)
        } else {
            (code, code, code)
        }
    }

    fn tell(&self, key: TrioKey, teller: u8, code: u16, broken: u16) -> u16 {
        self.script.plain_tell(key, teller, code, broken)
    }
}

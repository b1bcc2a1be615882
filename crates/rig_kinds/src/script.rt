// The script rig: broken speakers are heard as the entries of a list.
ghost use Rattle.std.specs.Prelude.{◌≡◌};
ghost use Rattle.rig_kinds.specs.Plain.{plain_wire, plain_trio};
ghost use Rattle.rig_kinds.specs.Scripts.{entry_at, script_sound};
ghost use Rattle.rig_kinds.specs.PlainLines.{plain-bad, plain-kept, plain-mute, plain-spoken, plain-agreed};

use crate::plain::Sounds;
use rigs::keys::{TrioKey, WireKey};
use rigs::{Rig, Wire};

// A rig with a list of entries. A broken speaker is heard by all as the entry for its place, or as spoken where the list is empty.
#[derive(Drop)]
pub struct ScriptRig {
    pub list: Vec<u16>,
}

impl ScriptRig {
    // The entry for a place, or none where the list is empty.
    #[tactic(auto, unfolding(crate::specs::Scripts::entry_at))]
    pub(crate) fn entry(&self, place: u32) -> Option<u16>
        ensures { result ≡ entry_at self.now.list.items place }
    {
        let index = (place as usize).checked_rem(self.list.len())?;
        self.list.get(index).copied()
    }
}

impl Sounds for ScriptRig {
    ghost sounds = { λ s. script_sound s.list.items };

    fn sound(&self, place: u32, code: u16) -> u16 {
        self.entry(place).unwrap_or(code)
    }
}

// The wire and the trio line of script and noise stay two impls: one over `Sounds` would have to stand in `rigs`, where no kind of rig is defined.
impl Wire for ScriptRig {
    ghost carried = { λ s. plain_wire (script_sound s.list.items) };

    ghost bad = { λ w. plain-bad (script_sound w.list.items) };

    ghost kept = { λ w. plain-kept (script_sound w.list.items) };

    fn wire(&self, key: WireKey, code: u16, broken: u16) -> u16 {
        self.plain_wire(key, code, broken)
    }
}

impl Rig for ScriptRig {
    ghost heard = { λ s. plain_trio (script_sound s.list.items) };

    ghost mute = { λ r. plain-mute (script_sound r.list.items) };

    ghost spoken = { λ r. plain-spoken (script_sound r.list.items) };

    ghost agreed = { λ r. plain-agreed (script_sound r.list.items) };

    fn trio(&self, key: TrioKey, code: u16, broken: u16) -> (u16, u16, u16) {
        self.plain_trio(key, code, broken)
    }
}

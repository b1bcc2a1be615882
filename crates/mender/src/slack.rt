// The slack: any rig as a weak rig.
ghost use Rattle.std.specs.Prelude.{◌≡◌};
ghost use Rattle.mender.specs.Slacks.{tell_wire, slack_told};
ghost use Rattle.std.proofs.Common.{rules};
ghost use Rattle.mender.specs.Slacken.{slack_untold, slack_passed};

use rigs::keys::{TrioKey, WireKey};
use rigs::{Rig, SILENCE, WeakRig, Wire};

// A weak rig of any rig: its trio line is the torn line, its wire to the other listener the telling.
#[derive(Drop)]
pub struct Slack<R> {
    pub rig: R,
}

// The key of the wire from the teller to the other listener.
fn tell_wire(key: TrioKey, teller: u8) -> WireKey
    ensures { result ≡ tell_wire key teller }
{
    WireKey {
        take: key.take,
        round: key.round,
        from: teller,
        to: key.other(teller),
    }
}

impl<R: Rig> Wire for Slack<R> {
    ghost carried = { λ s. R.Wire.carried s.rig };

    ghost bad = { Prim.search rules };

    ghost kept = { Prim.search rules };

    fn wire(&self, key: WireKey, code: u16, broken: u16) -> u16 {
        self.rig.wire(key, code, broken)
    }
}

impl<R: Rig> WeakRig for Slack<R> {
    ghost torn = { λ s. R.Rig.heard s.rig };

    ghost told = { λ s. slack_told (R.Wire.carried s.rig) };

    ghost mute = { Prim.search rules };

    ghost spoken = { Prim.search rules };

    ghost agreed = { Prim.search rules };

    ghost untold = { λ r. slack_untold (R.Wire.carried r.rig) };

    ghost passed = { λ r. slack_passed (R.Wire.carried r.rig) (R.Wire.kept r.rig) };

    fn cast(&self, key: TrioKey, code: u16, broken: u16) -> (u16, u16, u16) {
        self.rig.trio(key, code, broken)
    }

    fn tell(&self, key: TrioKey, teller: u8, code: u16, broken: u16) -> u16 {
        if !key.tells(teller) {
            return SILENCE;
        }
        self.rig.wire(tell_wire(key, teller), code, broken)
    }
}

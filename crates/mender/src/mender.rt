// The mender: a rig of any weak rig.
ghost use Rattle.std.specs.Prelude.{◌≡◌};
ghost use Rattle.mender.specs.Mending.{or_void, mended_at, mended};
ghost use Rattle.std.proofs.Common.{rules};
ghost use Rattle.mender.specs.Mended.{mended-mute, mended-spoken, mended-agreed};

use rigs::keys::{TrioKey, WireKey};
use rigs::{Rig, SILENCE, SILENT, VOID, WeakRig, Wire};

// A rig of any weak rig: each listener tells the other what it heard, and one in silence takes what it was told. Wires pass through.
#[derive(Drop)]
pub struct Mender<W> {
    pub weak: W,
}

// What a listener in silence takes: what it was told, or void if that is silence too.
fn or_void(told: u16) -> u16
    ensures { result ≡ or_void told }
{
    if told == SILENCE { VOID } else { told }
}

impl<W: WeakRig> Mender<W> {
    // What station s has in the end, where the three heard `heard`.
    fn mend(&self, key: TrioKey, heard: (u16, u16, u16), s: u8, broken: u16) -> u16
        ensures { result ≡ mended_at key heard (λ t x. W.WeakRig.told self.now.weak key t x broken) s }
    {
        let own = key.heard_by(heard, s);
        if s == key.speaker || own != SILENCE {
            return own;
        }
        let teller = key.other(s);
        let other_heard = key.heard_by(heard, teller);
        or_void(self.weak.tell(key, teller, other_heard, broken))
    }
}

impl<W: WeakRig> Wire for Mender<W> {
    ghost carried = { λ s. W.Wire.carried s.weak };

    ghost bad = { Prim.search rules };

    ghost kept = { Prim.search rules };

    fn wire(&self, key: WireKey, code: u16, broken: u16) -> u16 {
        self.weak.wire(key, code, broken)
    }
}

impl<W: WeakRig> Rig for Mender<W> {
    ghost heard = { λ s. mended (W.WeakRig.torn s.weak) (W.WeakRig.told s.weak) };

    ghost mute = { λ r. mended-mute (W.WeakRig.torn r.weak) (W.WeakRig.told r.weak) };

    ghost spoken = { λ r. mended-spoken (W.WeakRig.torn r.weak) (W.WeakRig.told r.weak) (W.WeakRig.spoken r.weak) };

    ghost agreed = { λ r.
        let m = W.WeakRig in
        mended-agreed (W.WeakRig.torn r.weak) (W.WeakRig.told r.weak) (m.spoken r.weak) (m.agreed r.weak) (m.passed r.weak) };

    fn trio(&self, key: TrioKey, code: u16, broken: u16) -> (u16, u16, u16) {
        if !key.is_good() {
            return SILENT;
        }
        let heard = self.weak.cast(key, code, broken);
        let a = self.mend(key, heard, key.a, broken);
        let b = self.mend(key, heard, key.b, broken);
        let c = self.mend(key, heard, key.c, broken);
        (a, b, c)
    }
}

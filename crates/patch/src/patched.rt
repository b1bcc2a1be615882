// A rig with its stations set on other boxes.
ghost use Rattle.std.specs.Prelude.{◌≡◌};
ghost use Rattle.patch.specs.Boxes.{box_of, low3, mid3, high3};
ghost use Rattle.patch.specs.Patching.{wire_down, trio_down, patched_wire, patched_trio};
ghost use Rattle.patch.specs.Down.{patched_bad, patched_kept, patched_mute, patched_spoken, patched_agreed};
ghost use Rattle.patch.specs.Digits.{one_each};

use crate::number::Patch;
use rigs::keys::{TrioKey, WireKey};
use rigs::{Rig, SILENCE, SILENT, Wire};

// A rig of any rig: stations, speaker and broken set go down as boxes, in box order, and answers come up in station order.
#[derive(Drop)]
pub struct Patched<R> {
    pub patch: Patch,
    pub rig: R,
}

impl Patch {
    // The key of the boxes under a wire's stations.
    pub fn wire_key(&self, key: WireKey) -> WireKey
        ensures { result ≡ wire_down (box_of self.now.number) key }
    {
        WireKey {
            from: self.under(key.from),
            to: self.under(key.to),
            ..key
        }
    }

    // The key of the boxes under three stations, in box order.
    #[tactic(auto, using(crate::proofs::Three::three_sorted))]
    pub fn trio_key(&self, key: TrioKey) -> TrioKey
        ensures { result ≡ trio_down (box_of self.now.number) key }
    {
        let mut boxes = [self.under(key.a), self.under(key.b), self.under(key.c)];
        boxes.sort_unstable();
        let [a, b, c] = boxes;
        TrioKey {
            a,
            b,
            c,
            speaker: self.under(key.speaker),
            ..key
        }
    }
}

impl<R: Rig> Wire for Patched<R> {
    ghost carried = { λ s. patched_wire (box_of s.patch.number) (R.Wire.carried s.rig) };

    ghost bad = { λ w. patched_bad (box_of w.patch.number) (R.Wire.carried w.rig) };

    ghost kept = { λ w. patched_kept (box_of w.patch.number) (one_each w.patch.number w.patch.once) (R.Wire.carried w.rig) (R.Wire.kept w.rig) };

    fn wire(&self, key: WireKey, code: u16, broken: u16) -> u16 {
        if !key.is_good() {
            return SILENCE;
        }
        self.rig
            .wire(self.patch.wire_key(key), code, self.patch.down(broken))
    }
}

impl<R: Rig> Rig for Patched<R> {
    ghost heard = { λ s. patched_trio (box_of s.patch.number) (R.Rig.heard s.rig) };

    ghost mute = { λ r. patched_mute (box_of r.patch.number) (R.Rig.heard r.rig) };

    ghost spoken = { λ r. patched_spoken (box_of r.patch.number) (one_each r.patch.number r.patch.once) (R.Rig.heard r.rig) (R.Rig.spoken r.rig) };

    ghost agreed = { λ r. patched_agreed (box_of r.patch.number) (one_each r.patch.number r.patch.once) (R.Rig.heard r.rig) (R.Rig.agreed r.rig) };

    fn trio(&self, key: TrioKey, code: u16, broken: u16) -> (u16, u16, u16) {
        if !key.is_good() {
            return SILENT;
        }
        let below = self.patch.trio_key(key);
        let heard = self.rig.trio(below, code, self.patch.down(broken));
        let a = below.heard_by(heard, self.patch.under(key.a));
        let b = below.heard_by(heard, self.patch.under(key.b));
        let c = below.heard_by(heard, self.patch.under(key.c));
        (a, b, c)
    }
}

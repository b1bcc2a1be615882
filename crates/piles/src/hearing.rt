// What the laws of a rig come to for whoever listens, on any rig and so on any pile.
ghost use Rattle.std.specs.Prelude.{◌≡◌, true, List, [], ◌∷◌, ◌≢◌};
ghost use Rattle.rigs.specs.Keys.{good_trio};
ghost use Rattle.rigs.specs.Lines.{silence};
ghost use Rattle.mender.specs.Mending.{mended};
ghost use Rattle.piles.specs.Piles.{pile_trio};
ghost use Rattle.piles.specs.Hearing.{pair_alike, alike};

use mender::mender::Mender;
use patch::patched::Patched;
use rigs::keys::TrioKey;
use rigs::{Rig, WeakRig};
use sets::contains;

// Whether s, which heard x, and t, which heard y, heard the same, or one of them is broken.
fn pair_alike(broken: u16, s: u8, x: u16, t: u8, y: u16) -> bool
    ensures { result ≡ pair_alike broken s x t y }
{
    contains(broken, s) || contains(broken, t) || x == y
}

// The same of each two of the three.
fn all_alike(key: TrioKey, broken: u16, heard: (u16, u16, u16)) -> bool
    ensures { result ≡ alike key broken heard }
{
    let (x, y, z) = heard;
    pair_alike(broken, key.a, x, key.b, y)
        && pair_alike(broken, key.b, y, key.c, z)
        && pair_alike(broken, key.a, x, key.c, z)
}

// Whether the good ones of the three hear the same; on a good key they do, unless silence is spoken.
pub fn good_hear_alike<R: Rig>(rig: &R, key: TrioKey, code: u16, broken: u16) -> bool
    ensures value { result ≡ alike key broken (R.Rig.heard rig.now key code broken) }
    ensures lawful { good_trio key ≡ true → (code ≢ silence) → result ≡ true }
{
    all_alike(key, broken, rig.trio(key, code, broken))
}

// The same on a pile of three patches over a mender on any weak rig: what is heard is what the pile of the three numbers answers.
pub fn on_three_floors<W: WeakRig>(
    pile: &Patched<Patched<Patched<Mender<W>>>>,
    key: TrioKey,
    code: u16,
    broken: u16,
) -> bool
    ensures value { result ≡ alike key broken (pile_trio (pile.now.patch.number ∷ pile.now.rig.patch.number ∷ pile.now.rig.rig.patch.number ∷ []) (mended (W.WeakRig.torn pile.now.rig.rig.rig.weak) (W.WeakRig.told pile.now.rig.rig.rig.weak)) key code broken) }
    ensures lawful { good_trio key ≡ true → (code ≢ silence) → result ≡ true }
{
    good_hear_alike(pile, key, code, broken)
}

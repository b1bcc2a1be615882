// One of two types, chosen as the program runs: a rig where both are rigs, a rule where both are rules.
ghost use Rattle.settings.specs.Eithers.{either};
ghost use Rattle.settings.specs.declared.either.Either.TheVariants.{First, Second};

use rigs::keys::{TrioKey, WireKey};
use rigs::{Rig, Wire};
use rules::Rule;

// The one or the other. An enum, since a boxed rig or rule may not be handed out; of our own, since another crate's type cannot take another crate's trait.
#[derive(Drop)]
pub enum Either<A, B> {
    First(A),
    Second(B),
}

impl<A: Rig, B: Rig> Wire for Either<A, B> {
    ghost carried = { either A.Wire.carried B.Wire.carried };

    ghost bad = { elim [ First a ↦ A.Wire.bad a | Second b ↦ B.Wire.bad b ] };

    ghost kept = { elim [ First a ↦ A.Wire.kept a | Second b ↦ B.Wire.kept b ] };

    fn wire(&self, key: WireKey, code: u16, broken: u16) -> u16 {
        match self {
            Either::First(rig) => rig.wire(key, code, broken),
            Either::Second(rig) => rig.wire(key, code, broken),
        }
    }
}

impl<A: Rig, B: Rig> Rig for Either<A, B> {
    ghost heard = { either A.Rig.heard B.Rig.heard };

    ghost mute = { elim [ First a ↦ A.Rig.mute a | Second b ↦ B.Rig.mute b ] };

    ghost spoken = { elim [ First a ↦ A.Rig.spoken a | Second b ↦ B.Rig.spoken b ] };

    ghost agreed = { elim [ First a ↦ A.Rig.agreed a | Second b ↦ B.Rig.agreed b ] };

    fn trio(&self, key: TrioKey, code: u16, broken: u16) -> (u16, u16, u16) {
        match self {
            Either::First(rig) => rig.trio(key, code, broken),
            Either::Second(rig) => rig.trio(key, code, broken),
        }
    }
}

impl<A: Rule, B: Rule> Rule for Either<A, B> {
    ghost stations = { either A.Rule.stations B.Rule.stations };

    ghost fails = { either A.Rule.fails B.Rule.fails };

    ghost sized = { elim [ First a ↦ A.Rule.sized a | Second b ↦ B.Rule.sized b ] };

    ghost own = { elim [ First a ↦ A.Rule.own a | Second b ↦ B.Rule.own b ] };

    ghost part = { elim [ First a ↦ A.Rule.part a | Second b ↦ B.Rule.part b ] };

    ghost single = { elim [ First a ↦ A.Rule.single a | Second b ↦ B.Rule.single b ] };

    ghost apart = { elim [ First a ↦ A.Rule.apart a | Second b ↦ B.Rule.apart b ] };

    fn n(&self) -> u8 {
        match self {
            Either::First(rule) => rule.n(),
            Either::Second(rule) => rule.n(),
        }
    }

    fn can_fail(&self, set: u16) -> bool {
        match self {
            Either::First(rule) => rule.can_fail(set),
            Either::Second(rule) => rule.can_fail(set),
        }
    }
}

// The agreement of a hall's stations: the theorem stands on the contract of `agreement_stands`.
#![tactic(auto)]

ghost use Rattle.std.specs.Prelude.{List};
ghost use Rattle.agreement.specs.Meanings.{Lawful};
ghost use Rattle.agreement.specs.Calls.{Call};
ghost use Rattle.agreement.specs.Made.{meaning_of};
ghost use Rattle.agreement.specs.Agreement.{Agrees, Agreement, AbovePiles};
ghost use Rattle.agreement.specs.Further.{FurtherLaws};
ghost use Rattle.agreement.specs.Unlawful.{Unlawful};

pub mod stage;

use rigs::Rig;
use rules::Rule;
use words::WordKind;

// The theorem, for all lawful meanings with words in W, every history, and above every pile of patches.
pub fn agreement_stands<W>()
    ensures agreed { Agreement W }
    ensures piled { AbovePiles W }
{}

// Further laws of rounds and histories, for all lawful meanings with words in W.
pub fn further_laws<W>()
    ensures { FurtherLaws W }
{}

// The meanings of parts whose types keep their traits' laws are lawful.
pub fn parts_are_lawful<R: Rig, Q: Rule, K: WordKind>(rig: &R, rule: &Q, rest: &K)
    ensures { Lawful (meaning_of R.Wire R.Rig.own Q.Rule K.WordKind rig.now rule.now rest.now) }
{}

// So a hall of any such parts agrees after every history, be its rig a pile or not.
pub fn parts_agree<R: Rig, Q: Rule, K: WordKind>(rig: &R, rule: &Q, rest: &K)
    ensures { (h : List (Call K)) → Agrees (meaning_of R.Wire R.Rig.own Q.Rule K.WordKind rig.now rule.now rest.now) h }
{
    agreement_stands::<K>();
    parts_are_lawful(rig, rule, rest);
}

// The laws keep out a rig of void for all, and rules under which all sets or none can fail.
pub fn laws_bite()
    ensures { Unlawful }
{}

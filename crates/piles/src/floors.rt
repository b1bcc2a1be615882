// The numbers of a pile, checked before a rig is given.
ghost use Rattle.std.specs.Prelude.{◌≡◌, MatchResult};
ghost use Rattle.refusals.specs.declared.Refusal.TheVariants.{DigitTwice};
ghost use Rattle.patch.specs.Boxes.{box_of, OneEach, Twice};
ghost use Rattle.piles.specs.Piles.{Pile, SomeTwice};

use patch::number::Patch;
use refusals::Refusal;

// Whether the numbers make a pile, top floor first: each is a patch. Refused where one has a digit twice.
#[tactic(auto, using(crate::proofs::Standing::pile))]
pub fn check(numbers: &[u64]) -> Result<(), Refusal>
    ensures made { MatchResult result (λ _. Pile numbers.now) (λ e. (e ≡ DigitTwice) × SomeTwice numbers.now) }
{
    for number in numbers {
        Patch::new(*number)?;
    }
    Ok(())
}

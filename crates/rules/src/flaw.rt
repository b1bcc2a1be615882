// Why numbers or masks make no rule.
ghost use Rattle.std.specs.Prelude.{◌≡◌};
ghost use Rattle.refusals.specs.declared.Refusal.TheVariants.{UnlawfulRule};

use refusals::Refusal;
use sets::text::Listed;
use thiserror::Error;

// What keeps a rule from being made.
#[derive(Clone, Copy, Debug, Error)]
pub enum Flaw {
    // under 3 stations
    #[error("a hall has 3 stations at least")]
    FewStations,
    // over 16 stations
    #[error("a hall has 16 stations at most")]
    ManyStations,
    // none may be broken, not even a single station
    #[error("a single station may always be broken")]
    NoneBroken,
    // so many may be broken that two such sets make up all stations
    #[error("two sets that may be broken would make up all stations")]
    HalfBroken,
    // over 16 masks
    #[error("there are 16 groups at most")]
    ManyMasks,
    // a mask with a station that the rule does not have
    #[error("{} has a station that is not in the hall", Listed {set: *.mask})]
    Stranger { mask: u16 },
    // a mask that a single station makes up all stations with
    #[error("{} and one more station would make up all stations", Listed {set: *.mask})]
    OneMissing { mask: u16 },
    // two masks that make up all stations, or one that has them all
    #[error("{} and {} would make up all stations", Listed {set: *.a}, Listed {set: *.b})]
    Together { a: u16, b: u16 },
}

// A call that would make a rule of such numbers or masks is refused as unlawful.
impl From<Flaw> for Refusal {
    ghost from_gives = { λ _ e. e ≡ UnlawfulRule };

    fn from(_flaw: Flaw) -> Refusal {
        Refusal::UnlawfulRule
    }
}

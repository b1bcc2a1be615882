// The calls by the addresses of their messages.
ghost use Rattle.std.specs.Prelude.{◌≡◌, MatchResult, ◌≢◌};
ghost use Rattle.refusals.specs.declared.Refusal.TheVariants.{UnknownAddress};
ghost use Rattle.play.specs.declared.name.Name.{Name};
ghost use Rattle.play.specs.Names.{address_of};

use refusals::Refusal;

// The names of the calls on a hall.
#[derive(Clone, Copy)]
pub enum Name {
    Open,
    Round,
    Strike,
    Mark,
    Clear,
    Read,
    Lamp,
}

// The call whose address this text is, or the refusal.
fn by_text(address: &str) -> Result<Name, Refusal>
    ensures { MatchResult result (λ c. address.now ≡ address_of c) (λ e. (e ≡ UnknownAddress) × ((c : Name) → address.now ≢ address_of c)) }
{
    match address {
        "/hall/open" => Ok(Name::Open),
        "/hall/round" => Ok(Name::Round),
        "/hall/strike" => Ok(Name::Strike),
        "/hall/mark" => Ok(Name::Mark),
        "/hall/clear" => Ok(Name::Clear),
        "/hall/read" => Ok(Name::Read),
        "/hall/lamp" => Ok(Name::Lamp),
        _ => Err(Refusal::UnknownAddress),
    }
}

// The call whose address this is, or the refusal.
impl TryFrom<&[u8]> for Name {
    type Error = Refusal;

    ghost try_from_gives = { λ address r. MatchResult r (λ c. address.now ≡ address_of c) (λ e. (e ≡ UnknownAddress) × ((c : Name) → address.now ≢ address_of c)) };

    fn try_from(address: &[u8]) -> Result<Name, Refusal> {
        std::str::from_utf8(address).map_or(Err(Refusal::UnknownAddress), by_text)
    }
}

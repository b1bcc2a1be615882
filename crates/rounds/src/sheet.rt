// The votes on a sheet: v(p,q,r), what p has of the trio p, q, r, stands at entry 256p + 16q + r of the first 4,096.
ghost use Rattle.std.specs.Prelude.{◌≡◌, ◌+◌, ◌*◌};
ghost use Rattle.rounds.specs.Sheets.{votes_on};

// The entries of all votes.
pub(crate) type Votes = [u16; 4096];

// The entry of v(p,q,r).
pub(crate) fn entry(p: u8, q: u8, r: u8) -> usize
    ensures { result ≡ 256 * p + 16 * q + r }
{
    256 * usize::from(p) + 16 * usize::from(q) + usize::from(r)
}

// v(p,q,r), 0 where the numbers lead past the last entry.
pub(crate) fn vote_at(votes: &Votes, p: u8, q: u8, r: u8) -> u16
    ensures { result ≡ votes_on votes.now p q r }
{
    votes.get(entry(p, q, r)).copied().unwrap_or(0)
}

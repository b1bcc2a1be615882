// Which words a station has to try.
ghost use Rattle.rounds.specs.Tried.{VotesSuffice};

// A station that tries only the words among its votes holds what it holds where it tries every word: under every lawful rule, for all votes.
pub fn votes_suffice()
    ensures { VotesSuffice }
{}

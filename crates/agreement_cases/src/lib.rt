// Worked cues, proved from the definitions, and a cue that decides.
#![tactic(auto)]

ghost use Rattle.std.specs.Prelude.{◌≡◌, true};
ghost use Rattle.agreement_cases.specs.Cases.{Majorities, OneEntry, TwoEntries, FourEntries, SomeCueDecides};
ghost use Rattle.agreement_cases.specs.Mistakes.{VoidForSilence, QLeftOut, OneLampLit};

use rules::count::CountRule;

// Whether the rule of the worked cues can be had: three stations, of which any one may be broken.
fn rule_is_made() -> bool
    ensures { result ≡ true }
{
    CountRule::new(3, 1).is_ok()
}

// Three readings and their vote, and the worked cues of three gates with station 0 broken, under a rule that can be had.
pub fn cases_hold() -> bool
    ensures value { result ≡ true }
    ensures majorities { Majorities }
    ensures one { OneEntry }
    ensures two { TwoEntries }
    ensures four { FourEntries }
{
    rule_is_made()
}

// There are lawful meanings and histories of which the theorem speaks: a cue that is decided, with one station marked.
pub fn some_cue_decides()
    ensures { SomeCueDecides }
{}

// Three mistakes that nearly pass: void taken for silence, q left out when Y is judged, and one lit lamp taken to settle a cue.
pub fn mistakes_show()
    ensures voids { VoidForSilence }
    ensures left { QLeftOut }
    ensures lamp { OneLampLit }
{}

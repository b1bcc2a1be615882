// The rig, the rule and the rest word of a hall, made from its settings.
ghost use Rattle.std.specs.Prelude.{◌≡◌, ℕ, IfOk, Some, None, MatchResult};
ghost use Rattle.refusals.specs.declared.Refusal.TheVariants.{NoWord as is_no_word, UnlawfulRule as is_unlawful, DigitTwice as is_twice};
ghost use Rattle.rules.specs.Group.{GroupMade};
ghost use Rattle.planner.specs.declared.plan.Request.TheVariants.{Count as asks_count};
ghost use Rattle.settings.specs.Makings.{Sound, GroupOf, RuleOf, PatchOf, TwiceIn, PatchesOf, TwiceAmong, under_of, BareOf, with_setting, CheckedOf, PartsOf, NotMade, UnmadeFor};
ghost use Rattle.settings.specs.declared.making.Unmade.TheVariants.{Refused as is_refused, Memory as is_short};

use crate::either::Either;
use mender::mender::Mender;
use patch::number::Patch;
use patch::patched::Patched;
use planner::plan::Request;
use refusals::Refusal;
use rig_kinds::noise::NoiseRig;
use rig_kinds::script::ScriptRig;
use rig_kinds::torn::TornRig;
use rules::count::CountRule;
use rules::group::GroupRule;
use std::alloc::{AllocError, Global};
use words::WordKind;

// Which words the stations say.
#[derive(Clone, Copy, PartialEq, Eq, Debug)]
pub enum Kind {
    Gate,
    Scene,
}

// Which rig joins the stations: a script or a torn line by its entries, noise by its seed. The torn one stands behind a mender.
#[derive(Drop)]
pub enum RigSetting {
    Script(Vec<u16>),
    Noise(u32),
    Torn(Vec<u16>),
}

// Up to three patches over the rig, or their numbers.
#[derive(Clone, Copy)]
pub struct Floors<T> {
    pub top: Option<T>,
    pub middle: Option<T>,
    pub bottom: Option<T>,
}

// What a hall is to be made of. The rest word is given by its code.
#[derive(Drop)]
pub struct Settings {
    pub rule: Request,
    pub kind: Kind,
    pub rest: u16,
    pub rig: RigSetting,
    pub floors: Floors<u64>,
}

// One of the settings of a hall.
#[derive(Drop)]
pub enum Setting {
    Rule(Request),
    Words(Kind),
    Rest(u16),
    Rig(RigSetting),
    Patches(Floors<u64>),
}

// A count rule or a group rule.
pub type SomeRule = Either<CountRule, GroupRule>;

// A rig of any kind, under no patch.
pub type BareRig = Either<ScriptRig, Either<NoiseRig, Mender<TornRig>>>;

// A rig under a patch or under none.
pub type Under<R> = Either<R, Patched<R>>;

// A rig of any kind under up to three patches.
pub type SomeRig = Under<Under<Under<BareRig>>>;

// The rest word, the rule and the patches that settings name.
#[derive(Drop)]
pub struct Checked<K> {
    pub rest: K,
    pub rule: SomeRule,
    pub patches: Floors<Patch>,
}

// What a hall is made of.
#[derive(Drop)]
pub struct Parts<K> {
    pub rig: SomeRig,
    pub rule: SomeRule,
    pub rest: K,
}

// Why there are no parts: the settings are refused, or there is no memory.
#[derive(Clone, Copy, Debug, PartialEq, Eq)]
pub enum Unmade {
    Refused(Refusal),
    Memory,
}

impl From<Refusal> for Unmade {
    ghost from_gives = { λ refusal e. e ≡ is_refused refusal };

    fn from(refusal: Refusal) -> Unmade {
        Unmade::Refused(refusal)
    }
}

impl From<AllocError> for Unmade {
    ghost from_gives = { λ _ e. e ≡ is_short };

    fn from(_e: AllocError) -> Unmade {
        Unmade::Memory
    }
}

// The word of a code, refused where the number is no word's.
pub fn word_of<K: WordKind>(code: u16) -> Result<K, Refusal>
    ensures { MatchResult result (λ w. K.WordKind.word code ≡ Some w) (λ e. (e ≡ is_no_word) × (K.WordKind.word code ≡ None)) }
{
    K::decode(code).ok_or(Refusal::NoWord)
}

// The group rule of n stations and these masks, refused where there is none. Made in two steps, as the project prescribes.
fn group_rule(n: u16, masks: &[u16]) -> Result<SomeRule, Refusal>
    ensures { MatchResult result (GroupOf n masks.now) (λ e. (e ≡ is_unlawful) × (GroupMade n masks.now → ⊥)) }
{
    let mut rule = GroupRule::new();
    rule.make(n, masks)?;
    Ok(Either::Second(rule))
}

// The rule that is asked for, refused where there is none.
pub fn rule_of(request: &Request) -> Result<SomeRule, Refusal>
    ensures { MatchResult result (RuleOf request.now) (λ e. (e ≡ is_unlawful) × (Sound request.now → ⊥)) }
{
    match request {
        Request::Count { n, t } => Ok(Either::First(CountRule::new(*n, *t)?)),
        Request::Group { n, masks } => group_rule(*n, masks.as_slice()),
    }
}

// The patch of a number, if there is one; refused where a digit occurs twice.
fn patch_of(number: Option<u64>) -> Result<Option<Patch>, Refusal>
    ensures { MatchResult result (PatchOf number) (λ e. (e ≡ is_twice) × TwiceIn number) }
{
    number.map(Patch::new).transpose()
}

// A rig under this patch, if there is one.
fn under<R>(patch: Option<Patch>, rig: R) -> Under<R>
    ensures { result ≡ under_of patch rig }
{
    match patch {
        Some(patch) => Either::Second(Patched { patch, rig }),
        None => Either::First(rig),
    }
}

// A rig of the kind that is set.
fn bare_rig(heap: Global, rig: &RigSetting) -> Result<BareRig, AllocError>
    ensures { IfOk result (BareOf rig.now) }
{
    match rig {
        RigSetting::Script(entries) => {
            let list = entries.to_vec(heap)?;
            Ok(Either::First(ScriptRig { list }))
        }
        RigSetting::Noise(seed) => Ok(Either::Second(Either::First(NoiseRig { seed: *seed }))),
        RigSetting::Torn(entries) => {
            let list = entries.to_vec(heap)?;
            let weak = TornRig {
                script: ScriptRig { list },
            };
            Ok(Either::Second(Either::Second(Mender { weak })))
        }
    }
}

impl Floors<u64> {
    // The patches of these numbers, refused from the top where a digit occurs twice.
    fn patches(self) -> Result<Floors<Patch>, Refusal>
        ensures { MatchResult result (PatchesOf self) (λ e. (e ≡ is_twice) × TwiceAmong self) }
    {
        Ok(Floors {
            top: patch_of(self.top)?,
            middle: patch_of(self.middle)?,
            bottom: patch_of(self.bottom)?,
        })
    }
}

impl Floors<Patch> {
    // The rig with these patches over it.
    fn over<R>(self, rig: R) -> Under<Under<Under<R>>>
        ensures { result ≡ under_of self.top (under_of self.middle (under_of self.bottom rig)) }
    {
        under(self.top, under(self.middle, under(self.bottom, rig)))
    }
}

impl Settings {
    // Three stations of which any one may be broken; gates that rest on HOLD; a script rig with no entries under no patch.
    pub fn new(heap: Global) -> Settings
        ensures { (result.rule ≡ asks_count 3 1) × ((result.kind ≡ Kind.Gate) × (result.rest ≡ 0)) }
    {
        Settings {
            rule: Request::Count { n: 3, t: 1 },
            kind: Kind::Gate,
            rest: 0,
            rig: RigSetting::Script(Vec::new(heap)),
            floors: Floors {
                top: None,
                middle: None,
                bottom: None,
            },
        }
    }

    // Sets one setting anew.
    pub(crate) fn set(&mut self, setting: Setting)
        ensures { self.new ≡ with_setting self.old setting }
    {
        match setting {
            Setting::Rule(rule) => self.rule = rule,
            Setting::Words(kind) => self.kind = kind,
            Setting::Rest(code) => self.rest = code,
            Setting::Rig(rig) => self.rig = rig,
            Setting::Patches(floors) => self.floors = floors,
        }
    }

    // The parts that the settings name, for words of this kind. The rest word is checked first, then the patches from the top, then the rule.
    pub fn checked<K: WordKind>(&self) -> Result<Checked<K>, Refusal>
        ensures { MatchResult result (CheckedOf (K.WordKind.word self.now.rest) self.now) (NotMade (K.WordKind.word self.now.rest) self.now) }
    {
        let rest = word_of(self.rest)?;
        let patches = self.floors.patches()?;
        let rule = rule_of(&self.rule)?;
        Ok(Checked {
            rest,
            rule,
            patches,
        })
    }

    // What a hall with words of this kind is made of, or the refusal of what is checked.
    pub fn parts<K: WordKind>(&self, heap: Global) -> Result<Parts<K>, Unmade>
        ensures { MatchResult result (PartsOf (K.WordKind.word self.now.rest) self.now) (UnmadeFor (K.WordKind.word self.now.rest) self.now) }
    {
        let Checked {
            rest,
            rule,
            patches,
        } = self.checked()?;
        let rig = patches.over(bare_rig(heap, &self.rig)?);
        Ok(Parts { rig, rule, rest })
    }
}

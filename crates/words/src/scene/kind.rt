// Scenes made from their parts, and as words.
ghost use Rattle.std.specs.Prelude.{◌≡◌, ℕ, ◌+◌, ◌*◌, ◌/◌, ◌%◌, ◌<◌, Bool, ◌&&◌, Some, MatchResult, nat_lt};
ghost use Rattle.std.proofs.Common.{ap, ◌∙◌, arith, rules};
ghost use Rattle.refusals.specs.declared.Refusal.TheVariants.{NoWord as is_no_word};
ghost use Rattle.words.specs.Scenes.{SceneMade, scene_code, scene_word, scene_at};
ghost use Rattle.std.proofs.lemmas.Bool.Decides.{nat_tests};
ghost use Rattle.std.proofs.lemmas.Bool.{cond-true, lt-ltb};
ghost use Rattle.words.specs.ScenesLemmas.{at_code};

use crate::WordKind;
use crate::scene::Scene;
use refusals::Refusal;

// How many banks there are.
const BANKS: u16 = 16;

// How many slots a bank has.
const SLOTS: u16 = 64;

impl Scene {
    // The scene of a bank and a slot, or a refusal where there is none.
    pub fn new(bank: u16, slot: u16) -> Result<Scene, Refusal>
        ensures { MatchResult result (λ s. (s.bank ≡ bank) × (s.slot ≡ slot)) (λ e. (e ≡ is_no_word) × (SceneMade bank slot → ⊥)) }
    {
        if bank >= BANKS || slot >= SLOTS {
            return Err(Refusal::NoWord);
        }
        Ok(Scene {
            bank: bank as u8,
            slot: slot as u8,
        })
    }

    // The bank, 0 to 15.
    pub fn bank(self) -> u8
        ensures { result ≡ self.bank }
    {
        self.bank
    }

    // The slot, 0 to 63.
    pub fn slot(self) -> u8
        ensures { result ≡ self.slot }
    {
        self.slot
    }
}

impl WordKind for Scene {
    ghost size = { 1024 };

    ghost code = { scene_code };

    ghost word = { scene_word };

    ghost sized = { first_of (Prim.search rules, Prim.grind (arith, Self.row.coded.inj)) };

    ghost full = { λ x. Prim.grind (arith, nat_tests) };

    ghost back = { λ w. cond-true _ _ _ (lt-ltb (scene_code w) 1024 (omega (arith, w.bank_low, w.slot_low))) ∙ ap Some (at_code w) };

    ghost only = { unfold scene_at in λ x w e. Prim.grind (arith, nat_tests) };

    fn encode(self) -> u16 {
        SLOTS * u16::from(self.bank) + u16::from(self.slot)
    }

    #[tactic(auto, using(crate::proofs::Decoding::scene_of_parts))]
    fn decode(number: u16) -> Option<Scene> {
        Scene::new(number / SLOTS, number % SLOTS).ok()
    }
}

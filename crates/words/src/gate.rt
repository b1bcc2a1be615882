// The gate: a word that holds the show or lets it go.
ghost use Rattle.std.specs.Prelude.{◌≡◌};
ghost use Rattle.words.specs.Gates.{gate_code, gate_word};
ghost use Rattle.words.specs.GatesLemmas.{gate_full, gate_back, gate_only};
ghost use Rattle.std.proofs.Common.{rules};

use crate::WordKind;

// HOLD or GO.
#[derive(Clone, Copy, PartialEq, Eq, Debug)]
pub enum Gate {
    Hold = 0,
    Go = 1,
}

impl WordKind for Gate {
    ghost size = { 2 };

    ghost code = { gate_code };

    ghost word = { gate_word };

    ghost sized = { Prim.search rules };

    ghost full = { gate_full };

    ghost back = { gate_back };

    ghost only = { gate_only };

    fn encode(self) -> u16 {
        self as u16
    }

    fn decode(number: u16) -> Option<Gate> {
        match number {
            0 => Some(Gate::Hold),
            1 => Some(Gate::Go),
            _ => None,
        }
    }
}

// What the stations hold at an opening.
ghost use Rattle.std.specs.Prelude.{◌≡◌, ℕ, ◌<◌, ◌≤◌, if◌then◌else◌, nat_eq};
ghost use Rattle.agreement.specs.Sheets.{sixteen};

use rigs::VOID;

// What all n stations hold: the caller its word, every other station the rest word.
pub(crate) fn first_codes(n: u8, rest: u16, caller: u8, word: u16) -> [u16; 16]
    requires { (n ≤ 16) × (caller < n) }
    ensures { result ≡ sixteen n (λ p. (if nat_eq p caller then word else rest)) }
{
    let mut held = [VOID; 16];
    held[..usize::from(n)].fill(rest);
    held[usize::from(caller)] = word;
    held
}

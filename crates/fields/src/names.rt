// The names of the vessels, eight bytes each: 1 to 8 bytes of 21 to 7E hexadecimal, then zeros.
ghost use Rattle.std.specs.Prelude.{◌≡◌, ◌≤◌, length};
ghost use Rattle.fields.specs.Names.{letters, well_formed, name_off, names_off};

use crate::layout::NAME_SIZE;

// How many bytes of 21 to 7E hexadecimal the name begins with.
pub fn letter_count(name: &[u8]) -> usize
    ensures { (result ≡ letters name.now) × (result ≤ length name.now) }
{
    name.iter().take_while(|b| b.is_ascii_graphic()).count()
}

// Whether the name is one such byte at least, then zeros.
#[tactic(auto, unfolding(crate::specs::Names::well_formed))]
fn well_formed(name: &[u8; NAME_SIZE]) -> bool
    ensures { result ≡ well_formed name.now }
{
    let (letters, rest) = name.split_at(letter_count(name));
    !letters.is_empty() && rest.iter().all(|b| *b == 0)
}

// Whether the name is ill-formed, or used again among those behind it.
#[tactic(auto, using(crate::proofs::NameLaws::used_found))]
fn name_off(name: &[u8; NAME_SIZE], behind: &[[u8; NAME_SIZE]]) -> bool
    ensures { result ≡ name_off name.now behind.now }
{
    !well_formed(name) || behind.contains(name)
}

// Whether a name is ill-formed or used twice.
#[tactic(auto, using(crate::proofs::NameLaws::names_none))]
pub fn names_off(names: &[[u8; NAME_SIZE]]) -> bool
    ensures { result ≡ names_off names.now }
{
    for (i, name) in names.iter().enumerate() {
        if name_off(name, &names[i + 1..]) {
            return true;
        }
    }
    false
}

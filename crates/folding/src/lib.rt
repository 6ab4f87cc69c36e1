// The fold of a byte under the list's flag (document 01, "Words"; request #104).
#![tactic(auto)]

ghost use Rattle.std.specs.Prelude.{◌≡◌};
ghost use Rattle.spec.specs.Keywords.{is_upper, fold_byte};

// Whether the byte is a capital: A to Z, or in Latin-1 an accented one, which the multiplication sign between them is not.
#[tactic(auto, unfolding(spec::specs::Keywords::is_upper))]
fn is_upper(b: u8) -> bool
    ensures { result ≡ is_upper b }
{
    match b {
        0..0x41 => false,
        0x41..=0x5A => true,
        0xC0..=0xDE => b != 0xD7,
        _ => false,
    }
}

// The byte as it compares.
#[tactic(auto, unfolding(spec::specs::Keywords::fold_byte))]
pub fn fold(flag: u8, b: u8) -> u8
    ensures { result ≡ fold_byte flag b }
{
    if flag == 1 && is_upper(b) {
        b + 0x20
    } else {
        b
    }
}

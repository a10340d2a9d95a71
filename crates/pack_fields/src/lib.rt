// What the writer and the reader of a pack share (manual 11.6): how many profiles it has at most, a number as four bytes, and the order of names.

#![tactic(auto)]

ghost use Rattle.std.specs.Prelude.{◌≡◌, List, ℕ, ◌+◌, ◌/◌, length};
ghost use Rattle.pack.specs.Layout.{four_bytes};
ghost use Rattle.pack.specs.Write.{profiles_of, ascending};

use pack_order::before;

// A pack has so many profiles at most.
pub const MOST: usize = 256;

// A number as four bytes, the low one first.
pub fn four_bytes(number: u32) -> [u8; 4]
    ensures { result ≡ four_bytes number }
{
    number.to_le_bytes()
}

// The names in a slice ascend: 16 bytes each, with so many bytes between them, and as many as stand there whole.
pub fn ascends(names: &[u8], between: u8) -> bool
    ensures { let number = (length names.now + between) / (16 + between) in
        ((bodies : List ℕ) → result ≡ ascending (profiles_of (16 + between) number names.now bodies)) }
{
    let gap = between as usize;
    let apart = 16 + gap;
    let number = (names.len() + gap) / apart;
    for i in 0..number.saturating_sub(1) {
        let first = apart * i;
        let next = first + apart;
        if !before(&names[first..first + 16], &names[next..next + 16]) {
            return false;
        }
    }
    true
}

// Reading a pack (manual 11.8): whether bytes are one, how many profiles it has, and its names and bodies as parts of it.

#![tactic(auto)]

ghost use Rattle.std.specs.Prelude.{◌≡◌, ◌*◌, ◌<◌, ◌≤◌, length, MatchOption};
ghost use Rattle.pack_order.specs.Order.{same};
ghost use Rattle.pack.specs.Layout.{trailer};
ghost use Rattle.pack.specs.Outcome.{numbered, answered};
ghost use Rattle.pack.specs.Read.{count_in, is_pack, reading, name_in, body_in};
ghost use Rattle.pack_read.specs.Offsets.{offsets_from};
ghost use Rattle.pack_read.specs.declared.ReadError.TheVariants.{NotAPack};

use pack_fields::{MOST, ascends, four_bytes};
use pack_order::same;

// Why no number of profiles is answered.
#[derive(Clone, Copy, Debug, PartialEq, Eq)]
pub enum ReadError {
    NotAPack,
}

// The number of the refusal.
impl From<ReadError> for u32 {
    ghost from_gives = { λ _ number. number ≡ 14 };

    fn from(error: ReadError) -> u32 {
        match error {
            ReadError::NotAPack => 14,
        }
    }
}

// How many profiles a pack of this length has; 0 where no pack has it.
// Kept: the clause by `count_in` has 0 for a length that no pack has.
pub fn count(pack: &[u8]) -> usize
    ensures { result ≡ count_in pack.now }
{
    if pack.len() < 12 {
        return 0;
    }
    let number = (pack.len() - 12) / 52;
    if number > MOST {
        return 0;
    }
    if pack.len() != 52 * number + 12 {
        return 0;
    }
    number
}

// Twelve bytes are the trailer of a pack of so many profiles.
fn is_trailer(bytes: &[u8], number: u32) -> bool
    requires { (length bytes.now ≡ 12) × (number ≤ 256) }
    ensures { result ≡ same bytes.now (trailer number) }
{
    if !same(&bytes[0..4], &four_bytes(32 * number)) {
        return false;
    }
    if !same(&bytes[4..8], &four_bytes(number)) {
        return false;
    }
    same(&bytes[8..12], b"RC53")
}

// The offsets of an index of so many entries are those of bodies that stand one after the other.
fn has_offsets(index: &[u8], number: usize) -> bool
    requires { (length index.now ≡ 20 * number) × (number ≤ 256) }
    ensures { result ≡ offsets_from 0 number index.now }
{
    for i in 0..number {
        let at = 20 * i + 16;
        let end = at + 4;
        if !same(&index[at..end], &four_bytes(32 * i as u32)) {
            return false;
        }
    }
    true
}

// The bytes are a pack.
pub fn is_pack(pack: &[u8]) -> bool
    ensures { result ≡ is_pack pack.now }
{
    let number = count(pack);
    let index = 32 * number;
    let trailer = 52 * number;
    if pack.len() != trailer + 12 {
        return false;
    }
    if !is_trailer(&pack[trailer..], number as u32) {
        return false;
    }
    if !has_offsets(&pack[index..trailer], number) {
        return false;
    }
    ascends(&pack[index..trailer], 4)
}

// The number of profiles.
pub fn read(pack: &[u8]) -> Result<usize, ReadError>
    ensures { result ≡ answered length (λ _. NotAPack) (reading pack.now) }
{
    if !is_pack(pack) {
        return Err(ReadError::NotAPack);
    }
    Ok(count(pack))
}

// The same as one number, for C: the number of profiles in the bits above 7-0, or 14.
pub fn read_number(pack: &[u8]) -> u32
    ensures { result ≡ numbered length (reading pack.now) }
{
    match read(pack) {
        Ok(number) => 0x100 * number as u32,
        Err(error) => u32::from(error),
    }
}

// Name number i as a part of the pack, if there is one. Looks at the length alone, not at whether the bytes are a pack.
pub fn name(pack: &[u8], i: usize) -> Option<&[u8]>
    ensures { MatchOption result (count_in pack.now ≤ i) (λ part. (i < count_in pack.now) × (part.now ≡ name_in pack.now i)) }
{
    let number = count(pack);
    if i >= number {
        return None;
    }
    let start = 32 * number + 20 * i;
    let end = start + 16;
    Some(&pack[start..end])
}

// Body number i, likewise.
pub fn body(pack: &[u8], i: usize) -> Option<&[u8]>
    ensures { MatchOption result (count_in pack.now ≤ i) (λ part. (i < count_in pack.now) × (part.now ≡ body_in pack.now i)) }
{
    if i >= count(pack) {
        return None;
    }
    let start = 32 * i;
    let end = start + 32;
    Some(&pack[start..end])
}

// Finding a profile of a pack by its name (manual 11.9), by halving: at most nine names are compared.

#![tactic(auto)]

ghost use Rattle.std.specs.Prelude.{◌≡◌, length, MatchResult};
ghost use Rattle.pack.specs.Outcome.{numbered, answered, refused};
ghost use Rattle.pack.specs.Find.{finding, halved, part_found, offset_of};
ghost use Rattle.pack_find.specs.Errors.{error_of, number_of};

use pack_order::compare;
use pack_read::{count, is_pack, name as name_at};
use std::cmp::Ordering;

// Why no profile was found: the bytes are no pack, or no profile has the name.
#[derive(Clone, Copy, Debug, PartialEq, Eq)]
pub enum FindError {
    NotAPack,
    NotFound,
}

// The number of the refusal.
impl From<FindError> for u32 {
    ghost from_gives = { λ error number. number ≡ number_of error };

    fn from(error: FindError) -> u32 {
        match error {
            FindError::NotAPack => 14,
            FindError::NotFound => 15,
        }
    }
}

// The offset of the body that has the name, in bytes that are a pack: this is not judged. Where they are one the answer is that of `find`, which is
// proved of the definitions (`by_halving` of `Packs`).
pub fn find_checked(pack: &[u8], name: &[u8]) -> Result<usize, FindError>
    ensures { result ≡ answered offset_of error_of (halved pack.now name.now) }
{
    let mut low: usize = 0;
    let mut high = count(pack);
    // Kept: `halved` (pack, Find) has these nine comparisons, and entries of bytes are no slice that std could search.
    for comparisons in 0..9usize {
        if low >= high {
            return Err(FindError::NotFound);
        }
        let middle = (low + high) / 2;
        match compare(name_at(pack, middle).unwrap(), name) {
            Ordering::Equal => {
                return Ok(32 * middle);
            }
            Ordering::Less => {
                low = middle + 1;
            }
            Ordering::Greater => {
                high = middle;
            }
        }
    }
    Err(FindError::NotFound)
}

// The offset of the body that has the name; an error where the bytes are no pack, else where no profile has it.
pub fn find(pack: &[u8], name: &[u8]) -> Result<usize, FindError>
    ensures { result ≡ answered offset_of error_of (finding pack.now name.now) }
{
    if !is_pack(pack) {
        return Err(FindError::NotAPack);
    }
    find_checked(pack, name)
}

// That body as a part of the pack.
pub fn found<'a>(pack: &'a [u8], name: &[u8]) -> Result<&'a [u8], FindError>
    ensures { let outcome = finding pack.now name.now in
        MatchResult result
        (λ part. (length part.now ≡ 32) × (part.now ≡ part_found pack.now outcome))
        (λ error. outcome ≡ refused (number_of error)) }
{
    let start = find(pack, name)?;
    let end = start + 32;
    Ok(&pack[start..end])
}

// The answer of `find_checked` as one number, for C: the offset in the bits above 7-0, or 15.
pub fn find_checked_number(pack: &[u8], name: &[u8]) -> u32
    ensures { result ≡ numbered offset_of (halved pack.now name.now) }
{
    match find_checked(pack, name) {
        Ok(offset) => 0x100 * offset as u32,
        Err(error) => u32::from(error),
    }
}

// The answer of `find` as one number, for C: the offset in the bits above 7-0, or 14 or 15.
pub fn find_number(pack: &[u8], name: &[u8]) -> u32
    ensures { result ≡ numbered offset_of (finding pack.now name.now) }
{
    match find(pack, name) {
        Ok(offset) => 0x100 * offset as u32,
        Err(error) => u32::from(error),
    }
}

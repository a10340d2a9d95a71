// Writing a pack (manual 11.7), from names and bodies that are lent one after the other, into a buffer that is lent.

#![tactic(auto)]

ghost use Rattle.std.specs.Prelude.{◌≡◌, List, ℕ, ◌+◌, ◌*◌, ◌≤◌, length};
ghost use Rattle.pack.specs.Layout.{index, trailer};
ghost use Rattle.pack.specs.Outcome.{numbered, answered};
ghost use Rattle.pack.specs.Write.{profiles_of, writing, filled};
ghost use Rattle.pack_write.specs.Puts.{Puts};
ghost use Rattle.pack_write.specs.Errors.{error_of, number_of};

use pack_fields::{MOST, ascends, four_bytes};

// Why a pack was not written, in the order in which it is tested: names and bodies do not pair up, more than 256 profiles, names that do not ascend, less
// room than the pack takes.
#[derive(Clone, Copy, Debug, PartialEq, Eq)]
pub enum WriteError {
    NotPaired,
    TooMany,
    NotAscending,
    TooShort,
}

// The number of the refusal.
impl From<WriteError> for u32 {
    ghost from_gives = { λ error number. number ≡ number_of error };

    fn from(error: WriteError) -> u32 {
        match error {
            WriteError::NotPaired => 16,
            WriteError::TooMany => 17,
            WriteError::NotAscending => 18,
            WriteError::TooShort => 19,
        }
    }
}

// Puts a piece into a buffer from `at` on. Answers where it ends, as the two below do.
fn put(buffer: &mut [u8], at: usize, piece: &[u8]) -> usize
    requires { at + length piece.now ≤ length buffer.old }
    ensures { Puts piece.now buffer.old at buffer.new result }
{
    let end = at + piece.len();
    buffer[at..end].copy_from_slice(piece);
    end
}

// Puts the index: each name, and behind it the offset of its body.
fn put_index(buffer: &mut [u8], at: usize, names: &[u8], number: usize) -> usize
    requires { (number ≤ 256) × (length names.now ≡ 16 * number) × (at + 20 * number ≤ length buffer.old) }
    ensures value { result ≡ at + 20 * number }
    ensures by_index { (bodies : List ℕ) →
        Puts (index 0 (profiles_of 16 number names.now bodies)) buffer.old at buffer.new result }
{
    let mut place = at;
    for i in 0..number {
        let start = 16 * i;
        let end = start + 16;
        place = put(buffer, place, &names[start..end]);
        place = put(buffer, place, &four_bytes(32 * i as u32));
    }
    place
}

// Puts the trailer.
fn put_trailer(buffer: &mut [u8], at: usize, number: usize) -> usize
    requires { (number ≤ 256) × (at + 12 ≤ length buffer.old) }
    ensures { (result ≡ at + 12) × Puts (trailer number) buffer.old at buffer.new result }
{
    let number_at = put(buffer, at, &four_bytes(32 * number as u32));
    let mark_at = put(buffer, number_at, &four_bytes(number as u32));
    put(buffer, mark_at, b"RC53")
}

// Writes the pack to the front of the buffer, and answers its length; later bytes stay. An error leaves all as it was.
// Kept: names and bodies are two flat slices for the C interface.
pub fn write(names: &[u8], bodies: &[u8], buffer: &mut [u8]) -> Result<usize, WriteError>
    ensures { let outcome = writing names.now bodies.now (length buffer.old) in
        (result ≡ answered length error_of outcome) × (buffer.new ≡ filled outcome buffer.old) }
{
    let number = bodies.len() / 32;
    if bodies.len() % 32 != 0 {
        return Err(WriteError::NotPaired);
    }
    if names.len() % 16 != 0 {
        return Err(WriteError::NotPaired);
    }
    if names.len() / 16 != number {
        return Err(WriteError::NotPaired);
    }
    if number > MOST {
        return Err(WriteError::TooMany);
    }
    if !ascends(names, 0) {
        return Err(WriteError::NotAscending);
    }
    if buffer.len() < 52 * number + 12 {
        return Err(WriteError::TooShort);
    }
    let index_at = put(buffer, 0, bodies);
    let trailer_at = put_index(buffer, index_at, names, number);
    let size = put_trailer(buffer, trailer_at, number);
    Ok(size)
}

// The same as one number, for C: the length in the bits above 7-0, or 16 to 19.
pub fn write_number(names: &[u8], bodies: &[u8], buffer: &mut [u8]) -> u32
    ensures { let outcome = writing names.now bodies.now (length buffer.old) in
        (result ≡ numbered length outcome) × (buffer.new ≡ filled outcome buffer.old) }
{
    match write(names, bodies, buffer) {
        Ok(size) => 0x100 * size as u32,
        Err(error) => u32::from(error),
    }
}

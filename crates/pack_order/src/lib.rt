// The order of two byte strings, by which the names of a pack ascend (manual 11.6).

#![tactic(auto)]

ghost use Rattle.std.specs.Prelude.{◌≡◌};
ghost use Rattle.pack_order.specs.Order.{compared, before, same};

use std::cmp::Ordering;

// Compares two byte strings byte by byte.
fn compare_bytes(a: &[u8], b: &[u8]) -> Ordering
    ensures { result ≡ compared a.now b.now }
{
    for (x, y) in a.iter().zip(b) {
        if x != y {
            return x.cmp(y);
        }
    }
    a.len().cmp(&b.len())
}

// Compares two byte strings, of any lengths: eight bytes at a time while both have as many left, then byte by byte.
// Kept: eight bytes at a time meet the bar of a read and a find of packs (docs/PERFORMANCE.md), which byte by byte takes 2.7 times.
pub fn compare(a: &[u8], b: &[u8]) -> Ordering
    ensures { result ≡ compared a.now b.now }
{
    let mut left = a;
    let mut right = b;
    while let (Some((x, xs)), Some((y, ys))) = (
        left.split_first_chunk::<8>(),
        right.split_first_chunk::<8>(),
    ) {
        let left_word = u64::from_be_bytes(*x);
        let right_word = u64::from_be_bytes(*y);
        if left_word != right_word {
            return left_word.cmp(&right_word);
        }
        left = xs;
        right = ys;
    }
    compare_bytes(left, right)
}

// One comes before the other.
pub fn before(a: &[u8], b: &[u8]) -> bool
    ensures { result ≡ before a.now b.now }
{
    compare(a, b).is_lt()
}

// Both are the same. Compared byte by byte, which suits the four bytes of a number.
pub fn same(a: &[u8], b: &[u8]) -> bool
    ensures { result ≡ same a.now b.now }
{
    compare_bytes(a, b).is_eq()
}

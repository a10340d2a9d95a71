// Whether a frame received is formed, which refusal 5 judges (manual 10.1).

#![tactic(auto)]

ghost use Rattle.std.specs.Prelude.{◌≡◌, nat_le};
ghost use Rattle.std.specs.List.{list_all};
ghost use Rattle.machine.specs.Refusals.{frame_formed};

// Every parity value is 0 or 1.
fn all_bits(parities: &[u8]) -> bool
    ensures { result ≡ list_all (λ parity. nat_le parity 1) parities.now }
{
    parities.iter().all(|parity| *parity <= 1)
}

// A frame received has 1 to 64 bytes, a parity value of 0 or 1 for each, and at most 7 last bits. The values are looked at last, so that a list of another
// length is refused at once, however long it is.
pub fn frame_formed(bytes: &[u8], parities: &[u8], last_bits: u8) -> bool
    ensures { result ≡ frame_formed bytes.now parities.now last_bits }
{
    let count = bytes.len();
    let measured = (1 <= count) & (count <= 64) & (parities.len() == count) & (last_bits <= 7);
    measured && all_bits(parities)
}

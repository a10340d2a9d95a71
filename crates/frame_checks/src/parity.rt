// The parity of a frame received (manual 8.4).
ghost use Rattle.std.specs.Prelude.{◌≡◌, not, ◌+◌, ◌%◌, eqb};
ghost use Rattle.std.specs.Int.Count.{ones};
ghost use Rattle.std.specs.List.{list_any, zip};
ghost use Rattle.bits.specs.Bits.{bit};
ghost use Rattle.machine.specs.Frames.{complete_bytes, parity_fails};
ghost use Rattle.state.specs.Turns.{Reads};

use state::Chip;

// A byte's count of ones with its parity bit is not what ChannelRedundancy's bit 1 demands.
fn parity_wrong(redundancy: u8, byte: u8, parity: u8) -> bool
    ensures { result ≡ not (eqb ((ones byte + parity) % 2) (bit redundancy 1)) }
{
    let sum = u8::count_ones(byte) % 2 + (parity % 2) as u32;
    sum % 2 != (redundancy / 2 % 2) as u32
}

// One of the bytes has a wrong parity bit.
fn any_parity_wrong(redundancy: u8, bytes: &[u8], parities: &[u8]) -> bool
    ensures { result ≡ list_any (λ pair. not (eqb ((ones pair.0 + pair.1) % 2) (bit redundancy 1))) (zip bytes.now parities.now) }
{
    bytes
        .iter()
        .zip(parities)
        .any(|(byte, parity)| parity_wrong(redundancy, *byte, *parity))
}

// The bytes of a frame that are complete: with last bits, the last one is not.
fn complete_bytes(bytes: &[u8], last_bits: u8) -> &[u8]
    ensures { result.now ≡ complete_bytes bytes.now last_bits }
{
    if last_bits == 0 {
        return bytes;
    }
    &bytes[..bytes.len().saturating_sub(1)]
}

// ParityErr is set: parity is checked (22h bit 0), and a complete byte's is wrong.
pub fn parity_fails(chip: &Chip, bytes: &[u8], parities: &[u8], last_bits: u8) -> bool
    ensures { Reads (λ m. parity_fails m bytes.now parities.now last_bits) chip.now result }
{
    let redundancy = chip.registers[0x22 - 0x10];
    if redundancy % 2 != 1 {
        return false;
    }
    any_parity_wrong(redundancy, complete_bytes(bytes, last_bits), parities)
}

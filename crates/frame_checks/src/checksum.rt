// The checksum of a frame received (manual 8.3), and the bytes that pass: all but it.
ghost use Rattle.std.specs.Prelude.{◌≡◌, List, ℕ, ◌≤◌, length, take};
ghost use Rattle.machine.specs.State.{Machine};
ghost use Rattle.machine.specs.Fifo.{register_at};
ghost use Rattle.machine.specs.Frames.{crc_fails, passed};
ghost use Rattle.state.specs.Turns.{Reads};
ghost use Rattle.frame_checks.specs.Trailing.{trailing_crc};

use state::Chip;

// How many bytes at a frame's end are its checksum: 1 for CRC8, else 2; none where none is checked (22h bit 3), the frame is shorter than it or has
// last bits.
fn trailing_crc(redundancy: u8, count: usize, last_bits: u8) -> usize
    ensures counts { (m : Machine) (bytes : List ℕ) → register_at m 0x22 ≡ redundancy → length bytes ≡ count →
        result ≡ trailing_crc m bytes last_bits }
    ensures inside { result ≤ count }
{
    let width = 2 - (redundancy / 16 % 2) as usize;
    if redundancy / 8 % 2 != 1 {
        return 0;
    }
    if count < width {
        return 0;
    }
    if last_bits != 0 {
        return 0;
    }
    width
}

// CRCErr is set: a checksum is checked (22h bit 3) and is wrong, or the frame is shorter than it or has last bits.
pub fn crc_fails(chip: &Chip, bytes: &[u8], last_bits: u8) -> bool
    ensures { Reads (λ m. crc_fails m bytes.now last_bits) chip.now result }
{
    let redundancy = chip.registers[0x22 - 0x10];
    if redundancy / 8 % 2 != 1 {
        return false;
    }
    let count = bytes.len();
    let width = trailing_crc(redundancy, count, last_bits);
    if width == 0 {
        return true;
    }
    let lsb = chip.registers[0x23 - 0x10];
    let msb = chip.registers[0x24 - 0x10];
    let end = count - width;
    let sum = crc::checksum(redundancy, lsb, msb, &bytes[..end]);
    if width == 1 {
        return u16::from(bytes[end]) != sum;
    }
    let last = end + 1;
    let low = u16::from(bytes[end]) == sum % 256;
    let high = u16::from(bytes[last]) == sum / 256;
    !(low & high)
}

// How many bytes of a frame pass: all but its checksum.
pub fn passed_length(chip: &Chip, bytes: &[u8], last_bits: u8) -> usize
    ensures passes { Reads (λ m. passed m bytes.now last_bits) chip.now (take result bytes.now) }
    ensures inside { result ≤ length bytes.now }
{
    let redundancy = chip.registers[0x22 - 0x10];
    let count = bytes.len();
    let width = trailing_crc(redundancy, count, last_bits);
    count - width
}

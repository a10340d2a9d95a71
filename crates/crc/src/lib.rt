// The checksum unit: both polynomials of manual 8.3, over one byte and over a slice. A byte of a 16-bit checksum is one lookup in a table of 256
// entries; a byte of CRC8 goes bit by bit.
//
// `redundancy` is the byte of ChannelRedundancy (22h): bit 4 chooses CRC8, bit 5 complements a 16-bit result.
// `register` is the CRC register. Every function takes any numbers.

#![tactic(auto)]

ghost use Rattle.std.specs.Prelude.{◌≡◌};
ghost use Rattle.crc.specs.Checksum.{after_bit, after_byte, taps16, crc8_bit, preset_of, absorbed, absorbed_all, result_of, checksum};

// x^8 + x^4 + x^3 + x^2 + 1, least bit first.
const TAPS_8: u16 = 0xB8;

#[tactic(auto, unfolding(crate::specs::Checksum::after_bit))]
fn after_bit(taps: u16, register: u16) -> u16
    ensures { result ≡ after_bit taps register }
{
    if register % 2 == 1 {
        (register / 2) ^ taps
    } else {
        register / 2
    }
}

// The register after one more byte, bit by bit.
fn after_byte(taps: u16, register: u16, byte: u8) -> u16
    ensures { result ≡ after_byte taps register byte }
{
    let mut next = register ^ (byte as u16);
    for _ in 0..8u8 {
        next = after_bit(taps, next);
    }
    next
}

// The register after one more byte of a 16-bit checksum: its high byte moves down, and the entry for what falls out is added.
fn after_byte_16(register: u16, byte: u8) -> u16
    ensures { result ≡ after_byte taps16 register byte }
{
    let mixed = register ^ (byte as u16);
    (mixed / 256) ^ crc_table::entry((mixed % 256) as u8)
}

// ChannelRedundancy chooses CRC8.
fn is_crc8(redundancy: u8) -> bool
    ensures { result ≡ crc8_bit redundancy }
{
    redundancy / 16 % 2 == 1
}

// The register that a checksum starts with, from CRCPresetLSB (23h) and CRCPresetMSB (24h).
pub fn preset(redundancy: u8, lsb: u8, msb: u8) -> u16
    ensures { result ≡ preset_of redundancy lsb msb }
{
    if is_crc8(redundancy) {
        lsb as u16
    } else {
        lsb as u16 + 256 * (msb as u16)
    }
}

// The register after one more byte.
pub fn absorb(redundancy: u8, register: u16, byte: u8) -> u16
    ensures { result ≡ absorbed redundancy register byte }
{
    if is_crc8(redundancy) {
        after_byte(TAPS_8, register, byte)
    } else {
        after_byte_16(register, byte)
    }
}

// The register after all bytes of a slice, in order.
pub fn absorb_all(redundancy: u8, register: u16, bytes: &[u8]) -> u16
    ensures { result ≡ absorbed_all redundancy register bytes.now }
{
    let mut next = register;
    for byte in bytes {
        next = absorb(redundancy, next, *byte);
    }
    next
}

// The result that a register stands for: what CRCResultLSB and CRCResultMSB show, and what a frame carries.
pub fn result(redundancy: u8, register: u16) -> u16
    ensures { result ≡ result_of redundancy register }
{
    if is_crc8(redundancy) {
        register
    } else if redundancy / 32 % 2 == 1 {
        0xFFFF - register
    } else {
        register
    }
}

// The checksum of a slice.
pub fn checksum(redundancy: u8, lsb: u8, msb: u8, bytes: &[u8]) -> u16
    ensures { result ≡ checksum redundancy lsb msb bytes.now }
{
    result(
        redundancy,
        absorb_all(redundancy, preset(redundancy, lsb, msb), bytes),
    )
}

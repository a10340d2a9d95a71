// What each register (manual 2.2) reads but FIFOData and PrimaryStatus.
ghost use Rattle.std.specs.Prelude.{◌≡◌, ◌%◌, ◌<◌};
ghost use Rattle.machine.specs.Registers.{register_read};
ghost use Rattle.event_host_read.specs.Shown.{Shows};

use crate::status::secondary_status;
use state::{
    BIT_FRAMING, CONTROL, CRC_MODE, CRC_REGISTER, Chip, ENABLES, ERRORS, PAGE, REQUESTS, STAGE,
    VALUE,
};

// ErrorFlag (0Ah) as it is stored. That it is a byte is known of a parameter by value, and not of an element that is loaded.
fn error_flag(errors: u8) -> u8
    ensures is { result ≡ errors }
    ensures byte { result < 256 }
{
    errors
}

// 01h-0Fh, but FIFOData, PrimaryStatus and Page.
fn low(chip: &Chip, register: u8) -> u8
    ensures { register < 0x10 → (register % 8 ≡ 0 → ⊥) → (register ≡ 0x02 → ⊥) → (register ≡ 0x03 → ⊥) →
        Shows (register_read register) chip.now result }
{
    match register {
        0x01 => chip.state[STAGE] % 64,
        0x04 => chip.held(),
        0x05 => secondary_status(chip),
        0x06 => chip.state[ENABLES],
        0x07 => chip.state[REQUESTS],
        0x09 => chip.state[CONTROL],
        0x0A => error_flag(chip.state[ERRORS]),
        0x0C => chip.state[VALUE],
        0x0D => (crc::result(chip.state[CRC_MODE], chip.numbers[CRC_REGISTER]) % 256) as u8,
        0x0E => (crc::result(chip.state[CRC_MODE], chip.numbers[CRC_REGISTER]) / 256) as u8,
        0x0F => chip.state[BIT_FRAMING],
        _ => 0,
    }
}

// A register's byte, by its address after mapping, but for FIFOData and PrimaryStatus: Page at every eighth, 10h-2Fh as stored, and 0 above.
pub fn read(chip: &Chip, register: u8) -> u8
    ensures { (register ≡ 0x02 → ⊥) → (register ≡ 0x03 → ⊥) → Shows (register_read register) chip.now result }
{
    if register % 8 == 0 {
        return chip.state[PAGE];
    }
    if register < 0x10 {
        return low(chip, register);
    }
    if register < 0x30 {
        return chip.registers[(register - 0x10) as usize];
    }
    0
}

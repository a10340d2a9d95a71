// The clauses of refusal 7 (manual 10.3), each as a test of the numbers that it speaks of.
//
// That an element is a byte is known where it is passed by value, so each clause is a function of bytes by value.
// Tests are joined by `&` and `|`: to a proof these are the specification's own `&&` and `||`.

#![tactic(auto)]

ghost use Rattle.std.specs.Prelude.{◌≡◌, [], ◌∷◌};
ghost use Rattle.machine.specs.WellFormed.{checksum_formed};
ghost use Rattle.state_clauses.specs.Clauses.{named_formed, flags_formed, timer_fields_formed, programming_formed, mode_fields_formed, modes_fields_formed, room_of, edition_fields_formed};

use edition::{MFRC531, RC530};
use state::{
    CALC_CRC, IDLE, LOAD_CONFIG, LOAD_KEY, LOAD_KEY_E2, READ_E2, RECEIVE, TRANSCEIVE_RECEIVING,
    TRANSCEIVE_SENDING, TRANSMIT, WRITE_E2, WRITE_E2_ADDRESSED, modes_word,
};
use state_timer::period;

// ErrorFlag, InterruptRq, InterruptEn and the key's flag have 0 where they always read 0: each byte has none of a mask's bits.
pub fn flags_formed(loaded: u8, enables: u8, requests: u8, errors: u8) -> bool
    ensures { result ≡ flags_formed loaded enables requests errors }
{
    (errors & 0x85 == 0) & ((requests & 0xC0 == 0) & ((enables & 0xC0 == 0) & (loaded & 0xFE == 0)))
}

// Page, Control and RxLastBits, likewise.
pub fn bits_formed(page: u8, control: u8, last: u8) -> bool
    ensures { result ≡ named_formed page control last }
{
    (page & 0x78 == 0) & ((control & 0xCF == 0) & (last & 0xF8 == 0))
}

// A checksum of eight bits is below 100h.
pub fn checksum_formed(register: u16, mode: u8) -> bool
    ensures { result ≡ checksum_formed (record { register = register; mode = mode }) }
{
    (mode / 16 % 2 == 0) | (register < 0x100)
}

// At most 78,648 programming clocks are left, and some exactly where WriteE2 is active and its latched bytes, 1 to 16, fit a block that may be written;
// the next address is below 200h. The latched count of another command is not judged.
pub fn writing_formed(stage: u8, latched: u8, left: u32, next: u16) -> bool
    ensures { result ≡ programming_formed stage latched left next }
{
    let count = latched as u32;
    let start = (next as u32 + 0x200 - count) % 0x200;
    let fits = (1 <= count) & ((count <= 16) & ((start % 16 + count <= 16) & (0x10 <= start)));
    let writes = (stage == WRITE_E2) | (stage == WRITE_E2_ADDRESSED);
    (left <= 78_648) & (((0 < left) == (writes & fits)) & (next < 0x200))
}

// A power mode, by its bit of Control and its number, of which bit 15 is its hold and bits 14-0 are the clocks that its leaving has to go, at most a whole number
// of them. The number is 0, or the bit is set and the mode has hold; the bit is set without hold only where a programming is there.
fn mode_formed(bit: bool, number: u16, whole: u16, programs: bool) -> bool
    ensures { result ≡ mode_fields_formed bit number whole programs }
{
    let holds = number >= 0x8000;
    ((number == 0) | (bit & holds)) & ((number % 0x8000 <= whole) & (!bit | (holds | programs)))
}

// Both power modes, with the programming clocks left; two that are off first.
pub fn modes_formed(control: u8, standby: u16, powerdown: u16, left: u32) -> bool
    ensures { result ≡ modes_fields_formed control standby powerdown left }
{
    if (control / 16 % 4 == 0) & (modes_word(standby, powerdown) == 0) {
        return true;
    }
    let programs = left != 0;
    let first = mode_formed(control / 32 % 2 == 1, standby, 4, programs);
    let second = mode_formed(control / 16 % 2 == 1, powerdown, 512, programs);
    first & second
}

// One more than the most bytes that may wait; 0 where the stage is none. While WriteE2 programs, 64 may.
// Kept: an Option is no plainer here, since 0 for no stage lets the one test that fewer are held refuse it too.
pub fn room(stage: u8, left: u32) -> u8
    ensures { result ≡ room_of stage left }
{
    if left != 0 {
        return 65;
    }
    match stage {
        IDLE => 65,
        WRITE_E2 => 2,
        WRITE_E2_ADDRESSED => 1,
        READ_E2 => 3,
        LOAD_CONFIG => 2,
        LOAD_KEY_E2 => 2,
        CALC_CRC => 1,
        LOAD_KEY => 12,
        TRANSMIT => 65,
        RECEIVE => 65,
        TRANSCEIVE_SENDING => 65,
        TRANSCEIVE_RECEIVING => 65,
        _ => 0,
    }
}

// A running timer counts from a value and keeps a prescaler with its phase; a stopped one keeps neither. No test asks which it is: the
// prescaler is at most 21 times the flag, which is 0 or 1, the value is at least the flag, and the phase of a prescaler of 0 is below 1.
pub fn timer_formed(running: u8, value: u8, prescaler: u8, phase: u32) -> bool
    ensures { result ≡ timer_fields_formed running value prescaler phase }
{
    let kept = prescaler as u16 <= 21 * running as u16;
    (running <= 1) & (kept & ((running <= value) & (phase < period(prescaler))))
}

// Kept: the edition is a number here, and no `Edition`, since it is an element of the chip that C lends, and any byte may stand there.
// The first four bytes of the memory are the product type of the edition that a number stands for. The four are one word, low byte first.
pub fn edition_formed(number: u8, a: u8, b: u8, c: u8, d: u8) -> bool
    ensures { result ≡ edition_fields_formed number (a ∷ b ∷ c ∷ d ∷ []) }
{
    let word = u32::from_le_bytes([a, b, c, d]);
    if number == MFRC531 {
        return word == 0x0FFF_CC30;
    }
    (number == RC530) & (word == 0x03FE_8830)
}

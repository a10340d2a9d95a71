// Whether a chip is well formed: refusal 7, manual 10.3. Clocks, numbers, bytes of state and the first four of the memory decide it; the other arrays have their
// sizes by their types.
//
// Every call of the chip judges it first, by `well_formed`. `quick` and `of_own_edition` pass the states that a host meets most of the time, by a few tests;
// `formed` judges every clause, and is asked where they do not pass. `well_formed` is put into each caller, which the compiler would not do by itself: called, it
// would save registers at each call.
//
// The clauses are functions of `state_clauses`. Tests are joined by `&`: to a proof this is the specification's own `&&`.

#![tactic(auto)]

ghost use Rattle.std.specs.Prelude.{◌&&◌, ◌≡◌, eqb};
ghost use Rattle.state.specs.View.{at};
ghost use Rattle.state_clauses.specs.Clauses.{timer_fields_formed, edition_fields_formed};
ghost use Rattle.state_formed.specs.Judged.{ReadsFields, Judges, first_clear, rests_with, usual_with, usual};

use state::{
    CALC_CRC, CONTROL, CRC_MODE, CRC_REGISTER, Chip, EDITION, ENABLES, ERRORS, IDLE, KEY_LOADED,
    LATCHED, LEFT, NEXT, PAGE, PHASE, POWER_DOWN, PRESCALER, REQUESTS, RUNNING, RX_LAST_BITS,
    STAGE, STAND_BY, VALUE, modes_word,
};
use state_clauses::{
    bits_formed, checksum_formed, edition_formed, flags_formed, modes_formed, room, timer_formed,
    writing_formed,
};

// Of the first eight bytes of state, as one word, the bits that always read 0, those of the power modes in Control, and CRC8.
fn word(a: u8, b: u8, c: u8, d: u8, e: u8, f: u8, g: u8, h: u8) -> u64
    ensures { eqb result 0 ≡ first_clear a b c d e f g h }
{
    u64::from_le_bytes([a, b, c, d, e, f, g, h]) & 0x85C0_10C0_F8FE_FF78
}

// 0 where neither such a bit is set nor programming clocks are left nor a power mode has a number.
fn none(word: u64, left: u32, modes: u32) -> u64
    ensures { eqb result 0 ≡ (eqb word 0 && (eqb left 0 && eqb modes 0)) }
{
    word | (left | modes) as u64
}

// Idle or CalcCRC, with no more bytes than may wait.
fn rests(stage: u8, count: u8) -> bool
    ensures { result ≡ rests_with stage count }
{
    if stage == IDLE {
        return count <= 64;
    }
    (stage == CALC_CRC) & (count == 0)
}

// Whether the timer is formed, with one that has stopped first.
fn timer_kept(running: u8, value: u8, prescaler: u8, phase: u32) -> bool
    ensures { result ≡ timer_fields_formed running value prescaler phase }
{
    if u16::from_le_bytes([running, prescaler]) == 0 && phase == 0 {
        return true;
    }
    timer_formed(running, value, prescaler, phase)
}

// The memory is of the chip's edition.
pub fn of_own_edition(chip: &Chip) -> bool
    ensures { result ≡ edition_fields_formed (at chip.now.state 11) chip.now.eeprom }
{
    edition_formed(
        chip.state[EDITION],
        chip.eeprom[0],
        chip.eeprom[1],
        chip.eeprom[2],
        chip.eeprom[3],
    )
}

// The states that a host meets most of the time, but for the edition: Idle or CalcCRC rests, nothing is programmed, both power modes are off, every bit that
// always reads 0 is 0, and CRC8 is 0. The next address and the word of the power modes are given by value: without their loads it is short enough for the
// compiler to put it into a host access.
fn passes(chip: &Chip, next: u16, modes: u32) -> bool
    ensures { ReadsFields (usual_with next (eqb modes 0)) chip.now result }
{
    let bits = word(
        chip.state[PAGE],
        chip.state[CONTROL],
        chip.state[KEY_LOADED],
        chip.state[RX_LAST_BITS],
        chip.state[ENABLES],
        chip.state[CRC_MODE],
        chip.state[REQUESTS],
        chip.state[ERRORS],
    );
    if none(bits, chip.clocks[LEFT], modes) != 0 {
        return false;
    }
    if next >= 0x200 {
        return false;
    }
    if !rests(chip.state[STAGE], chip.held()) {
        return false;
    }
    timer_kept(
        chip.state[RUNNING],
        chip.state[VALUE],
        chip.state[PRESCALER],
        chip.clocks[PHASE],
    )
}

// The same, of the chip's own numbers.
pub fn quick(chip: &Chip) -> bool
    ensures { ReadsFields usual chip.now result }
{
    let modes = modes_word(chip.numbers[STAND_BY], chip.numbers[POWER_DOWN]);
    passes(chip, chip.numbers[NEXT], modes)
}

// Every clause.
pub fn formed(chip: &Chip) -> bool
    ensures { Judges chip.now result }
{
    let state = &chip.state;
    let flags = flags_formed(
        state[KEY_LOADED],
        state[ENABLES],
        state[REQUESTS],
        state[ERRORS],
    );
    let bits = bits_formed(state[PAGE], state[CONTROL], state[RX_LAST_BITS]);
    let timer = timer_formed(
        state[RUNNING],
        state[VALUE],
        state[PRESCALER],
        chip.clocks[PHASE],
    );
    let checksum = checksum_formed(chip.numbers[CRC_REGISTER], state[CRC_MODE]);
    let writing = writing_formed(
        state[STAGE],
        state[LATCHED],
        chip.clocks[LEFT],
        chip.numbers[NEXT],
    );
    let fits = chip.held() < room(state[STAGE], chip.clocks[LEFT]);
    let modes = modes_formed(
        state[CONTROL],
        chip.numbers[STAND_BY],
        chip.numbers[POWER_DOWN],
        chip.clocks[LEFT],
    );
    let edition = of_own_edition(chip);
    flags & (bits & (timer & (checksum & (writing & (fits & (modes & edition))))))
}

// Whether the chip is well formed, with the states that a host meets most of the time first.
#[inline(always)]
pub fn well_formed(chip: &Chip) -> bool
    ensures { Judges chip.now result }
{
    (quick(chip) && of_own_edition(chip)) || formed(chip)
}

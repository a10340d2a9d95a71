// Clocks while a power mode has hold, and a mode that takes hold at the end of a programming (manual 9.10).
ghost use Rattle.std.specs.Prelude.{◌≡◌, cond};
ghost use Rattle.state.specs.View.{with_numbers, with_state};
ghost use Rattle.machine.specs.Power.{stands_still};
ghost use Rattle.event_clock_advance.specs.Clock.{ReadsAgreeing, TurnsRunning, hold_taken, standing, left_within, number_after, Stands};

use state::{CONTROL, Chip, POWER_DOWN, STAND_BY, control_byte, modes_word};

// A power mode has hold: where the fields agree, only such a mode has a number above 0.
pub fn stands_still(chip: &Chip) -> bool
    ensures { ReadsAgreeing stands_still chip.now result }
{
    modes_word(chip.numbers[STAND_BY], chip.numbers[POWER_DOWN]) != 0
}

// How many of so many clocks begin while the mode of a number has hold.
fn stands_for(number: u16, by: u32) -> u32
    ensures { result ≡ standing number by }
{
    if number < 0x8000 {
        return 0;
    }
    let go = (number - 0x8000) as u32;
    if (number == 0x8000) | (by < go) {
        return by;
    }
    go
}

// Whether the leaving of a number is over within so many clocks.
fn left_within(number: u16, by: u32) -> bool
    ensures { result ≡ left_within number by }
{
    if number <= 0x8000 {
        return false;
    }
    (number - 0x8000) as u32 <= by
}

// The number after so many clocks: 0 once the mode is left.
fn number_after(number: u16, by: u32) -> u16
    ensures { result ≡ number_after number by }
{
    if number <= 0x8000 {
        return number;
    }
    if (number - 0x8000) as u32 <= by {
        return 0;
    }
    number - by as u16
}

// So many clocks, as far as they begin while a mode has hold: both leavings go on by them. Answers how many are left, in which no mode has hold.
fn modes_clocked(chip: &mut Chip, by: u32) -> u32
    ensures turns { Stands by chip.old chip.new result }
    ensures rest { chip.new ≡ with_numbers chip.new.numbers (with_state chip.new.state chip.old) }
{
    let control = chip.state[CONTROL];
    let standby = chip.numbers[STAND_BY];
    let powerdown = chip.numbers[POWER_DOWN];
    let stood = stands_for(standby, by).max(stands_for(powerdown, by));
    let first = (control / 32 % 2 == 1) & !left_within(standby, stood);
    let second = (control / 16 % 2 == 1) & !left_within(powerdown, stood);
    chip.numbers[STAND_BY] = number_after(standby, stood);
    chip.numbers[POWER_DOWN] = number_after(powerdown, stood);
    chip.state[CONTROL] = control_byte(first, second);
    by - stood
}

// The same, with the test whether a mode has hold at all.
pub fn stood(chip: &mut Chip, by: u32) -> u32
    ensures turns { Stands by chip.old chip.new result }
    ensures rest { chip.new ≡ with_numbers chip.new.numbers (with_state chip.new.state chip.old) }
{
    if !stands_still(chip) {
        return by;
    }
    modes_clocked(chip, by)
}

// The number of a mode without hold, at the end of a programming: hold, where its bit is set.
fn number_held(bit: bool) -> u16
    ensures { result ≡ cond bit 0x8000 0 }
{
    if bit { 0x8000 } else { 0 }
}

// A programming has ended, and no mode has hold: each that has waited takes it.
pub fn hold_taken(chip: &mut Chip)
    ensures turns { TurnsRunning hold_taken chip.old chip.new }
    ensures rest { chip.new ≡ with_numbers chip.new.numbers chip.old }
{
    let control = chip.state[CONTROL];
    if control == 0 {
        return;
    }
    chip.numbers[STAND_BY] = number_held(control / 32 % 2 == 1);
    chip.numbers[POWER_DOWN] = number_held(control / 16 % 2 == 1);
}

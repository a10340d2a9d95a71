// ReadE2 (manual 7.3): the bytes of the EEPROM that it offers, and its step.
//
// The step waits until all its arguments are held, then takes them and ends. Its contract holds whatever command is active.

#![tactic(auto)]

ghost use Rattle.std.specs.Prelude.{◌≤◌, ◌≡◌, true};
ghost use Rattle.machine.specs.State.{ReadE2};
ghost use Rattle.machine.specs.Fifo.{offered_all, lost_of};
ghost use Rattle.machine.specs.Memory.{bytes_from};
ghost use Rattle.machine.specs.Commands.{readable, read_from, stepped_as, lost_as};
ghost use Rattle.state.specs.View.{with_clocks, with_numbers, with_slots, with_state};
ghost use Rattle.state.specs.Parts.{clocks_numbers_state_slots_eeprom, numbers_state_slots_eeprom};
ghost use Rattle.state.specs.Turns.{TurnsLosing, TurnsLosingAny};
ghost use Rattle.command_read_e2.specs.Reading.{lost_reading};

use command_arguments::address;
use state::Chip;
use state_fifo::{argument, offered, taken};

// The bytes of the EEPROM from an address on are offered, all of which may be read. Answers how many were lost.
fn offered_memory(chip: &mut Chip, address: u16, count: u8) -> u8
    requires { readable address count ≡ true }
    ensures turns { let bytes = bytes_from chip.old.eeprom address count in
        TurnsLosing (offered_all bytes) (lost_of bytes) chip.old chip.new result }
    ensures others { let bytes = bytes_from chip.old.eeprom address count in
        TurnsLosingAny numbers_state_slots_eeprom (offered_all bytes) (lost_of bytes) chip.old chip.new result }
    ensures small { result ≤ 128 }
    ensures rest { chip.new ≡ with_numbers chip.new.numbers (with_state chip.new.state (with_slots chip.new.slots chip.old)) }
{
    let start = address as usize;
    let end = count as usize;
    let mut lost: u8 = 0;
    // Kept: the chip is lent whole to what the loop calls, so that no part of its memory can be gone through beside it.
    for i in 0..end {
        let byte = chip.eeprom[start + i];
        lost += offered(chip, byte);
    }
    lost
}

// ReadE2 on an address and a count: the bytes are offered where all lie below 080h, else AccessErr is set. Count 0 offers none. Answers how many bytes were
// lost.
fn read_from(chip: &mut Chip, address: u16, count: u8) -> u8
    ensures turns { TurnsLosing (read_from address count) (lost_reading address count) chip.old chip.new result }
    ensures others { TurnsLosingAny numbers_state_slots_eeprom (read_from address count) (lost_reading address count) chip.old chip.new result }
    ensures small { result ≤ 128 }
    ensures rest { chip.new ≡ with_numbers chip.new.numbers (with_state chip.new.state (with_slots chip.new.slots chip.old)) }
{
    if (count == 0) | (address as usize + count as usize <= 0x80) {
        return offered_memory(chip, address, count);
    }
    chip.failed(0x20);
    0
}

// ReadE2: an address and a count. Answers how many bytes were lost.
pub fn read_e2(chip: &mut Chip) -> u8
    ensures turns { TurnsLosing (stepped_as ReadE2) (lost_as ReadE2) chip.old chip.new result }
    ensures others { TurnsLosingAny clocks_numbers_state_slots_eeprom (stepped_as ReadE2) (lost_as ReadE2) chip.old chip.new result }
    ensures small { result ≤ 128 }
    ensures rest { chip.new ≡ with_clocks chip.new.clocks (with_numbers chip.new.numbers (with_state chip.new.state (with_slots chip.new.slots chip.old))) }
{
    if chip.held() < 3 {
        return 0;
    }
    let from = address(chip);
    let count = argument(chip, 2);
    taken(chip, 3);
    let lost = read_from(chip, from, count);
    chip.ended();
    lost
}

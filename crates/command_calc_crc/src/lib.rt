// CalcCRC (manual 7.6): it takes every held byte into the checksum and goes on. Its contract holds whatever command is active.

#![tactic(auto)]

ghost use Rattle.std.specs.Prelude.{◌≡◌};
ghost use Rattle.crc.specs.Checksum.{absorbed_all};
ghost use Rattle.machine.specs.State.{CalcCRC};
ghost use Rattle.machine.specs.Commands.{stepped_as};
ghost use Rattle.state.specs.View.{held_from, with_numbers, with_state};
ghost use Rattle.state.specs.Parts.{numbers_state_slots};
ghost use Rattle.state.specs.Turns.{Turns, TurnsAny};

use state::{CRC_MODE, CRC_REGISTER, Chip, READ};
use state_fifo::emptied;

// The CRC register after so many held bytes, the first from a position on.
fn absorbed(slots: &[u8; 64], position: u8, count: u8, mode: u8, register: u16) -> u16
    ensures { result ≡ absorbed_all mode register (held_from slots.now position count) }
{
    let start = position as usize;
    let end = count as usize;
    let mut next = register;
    for i in 0..end {
        next = crc::absorb(mode, next, slots[(start + i) % 64]);
    }
    next
}

// CalcCRC's step: every held byte is taken, and TxIRq is set when any was.
pub fn calc_crc(chip: &mut Chip)
    ensures turns { Turns (stepped_as CalcCRC) chip.old chip.new }
    ensures others { TurnsAny numbers_state_slots (stepped_as CalcCRC) chip.old chip.new }
    ensures rest { chip.new ≡ with_numbers chip.new.numbers (with_state chip.new.state chip.old) }
{
    let count = chip.held();
    if count == 0 {
        return;
    }
    chip.numbers[CRC_REGISTER] = absorbed(
        &chip.slots,
        chip.state[READ],
        count,
        chip.state[CRC_MODE],
        chip.numbers[CRC_REGISTER],
    );
    emptied(chip);
    chip.requested(0x10);
}

// WriteE2 (manual 7.2), in two steps: it takes its address, and it latches held bytes up to the end of a block, which starts a programming. Each
// contract holds whatever the stage is. Where a batch begins is told besides, for the end of its programming.

#![tactic(auto)]

ghost use Rattle.std.specs.Prelude.{◌%◌, ◌≤◌, ◌++◌, min, drop, length, ◌≡◌};
ghost use Rattle.machine.specs.State.{addressing, ready};
ghost use Rattle.machine.specs.Memory.{room_in_block};
ghost use Rattle.machine.specs.Commands.{write_stepped};
ghost use Rattle.state.specs.View.{at, batch_start, held_from, view, with_clocks, with_latch, with_numbers, with_state};
ghost use Rattle.state.specs.Parts.{clocks_numbers_state_slots, clocks_numbers_state_slots_latch};
ghost use Rattle.state.specs.Turns.{Sizes, Turns, TurnsAny};
ghost use Rattle.command_write_e2.specs.Next.{next_after};

use command_arguments::{address, held_copied};
use state::{Chip, LATCHED, LEFT, NEXT, READ, STAGE, WRITE_E2_ADDRESSED};
use state_fifo::taken;

// WriteE2 waits for its address: the first two held bytes are it.
pub fn address_taken(chip: &mut Chip)
    ensures turns { Turns (write_stepped addressing) chip.old chip.new }
    ensures others { TurnsAny clocks_numbers_state_slots (write_stepped addressing) chip.old chip.new }
    ensures next { Sizes chip.old → at chip.new.numbers 1 ≡ next_after (at chip.old.numbers 1) (view chip.old) }
    ensures rest { chip.new ≡ with_clocks chip.new.clocks (with_numbers chip.new.numbers (with_state chip.new.state chip.old)) }
{
    if chip.held() < 2 {
        return;
    }
    let next = address(chip);
    taken(chip, 2);
    chip.numbers[NEXT] = next;
    chip.clocks[LEFT] = 0;
    chip.state[LATCHED] = 0;
    chip.state[STAGE] = WRITE_E2_ADDRESSED;
}

// How many of the held bytes are latched: as many as there are, or as there is room for before the end of the block.
fn batch(count: u8, next: u16) -> u8
    ensures { result ≡ min count (room_in_block next) }
{
    count.min((16 - next % 16) as u8)
}

// Held bytes, the first from a position on, are copied to the front of the latch.
// Kept: tried with `&mut chip.latch[..]` at the call: a part of an array of a chip that is lent cannot be lent on.
fn latch_bytes(latch: &mut [u8; 16], slots: &[u8; 64], position: u8, count: u8)
    requires { count ≤ 16 }
    ensures { length latch.old ≡ 16 → latch.new ≡ held_from slots.now position count ++ drop count latch.old }
{
    held_copied(slots, position, &mut latch[..count as usize]);
}

// WriteE2 has its address: held bytes are latched up to the end of the block, and their programming starts, which takes 5.8 ms; below 010h it ends with
// AccessErr and takes none.
pub fn bytes_latched(chip: &mut Chip)
    ensures turns { let next = at chip.old.numbers 1 in
        Turns (write_stepped (ready (next % 0x200))) chip.old chip.new }
    ensures others { let next = at chip.old.numbers 1 in
        TurnsAny clocks_numbers_state_slots_latch (write_stepped (ready (next % 0x200))) chip.old chip.new }
    ensures rest { chip.new ≡ with_clocks chip.new.clocks (with_numbers chip.new.numbers (with_state chip.new.state (with_latch chip.new.latch chip.old))) }
{
    let waiting = chip.held();
    if waiting == 0 {
        return;
    }
    let next = chip.numbers[NEXT] % 0x200;
    if next < 0x10 {
        chip.failed(0x20);
        chip.ended();
        return;
    }
    let count = batch(waiting, next);
    latch_bytes(&mut chip.latch, &chip.slots, chip.state[READ], count);
    chip.numbers[NEXT] = (next + count as u16) % 0x200;
    chip.clocks[LEFT] = 78_648;
    chip.state[LATCHED] = count;
    chip.state[STAGE] = WRITE_E2_ADDRESSED;
    taken(chip, count);
}

// Where the latched bytes go: they end where the next byte goes.
pub fn batch_start(next: u16, latched: u8) -> u16
    ensures { result ≡ batch_start next latched }
{
    ((next as u32 + 0x200 - latched as u32) % 0x200) as u16
}

// The FIFO in the state (manual 3): bytes offered, lost, taken and read, and the alerts. Its read and write positions are added with eight-bit wrap, and
// a byte's slot is its position's remainder by 64.

#![tactic(auto)]

ghost use Rattle.std.specs.Prelude.{◌≡◌, ◌+◌, ◌-◌, ◌%◌, ◌≤◌, min, [], length, slice_index, ℕ, ◌<◌};
ghost use Rattle.machine.specs.State.{with_held};
ghost use Rattle.machine.specs.Fifo.{first_of, rest_of, one_lost, lost_at, lost_of, alerted, offered, offered_all};
ghost use Rattle.machine.specs.Commands.{argument, taken};
ghost use Rattle.machine.specs.Registers.{flag};
ghost use Rattle.state.specs.View.{with_numbers, with_slots, with_state};
ghost use Rattle.state.specs.Parts.{numbers_state, numbers_state_registers_slots, numbers_state_slots, state_part, state_registers, state_registers_slots, state_slots};
ghost use Rattle.state.specs.Turns.{Turns, TurnsAny, TurnsLosing, TurnsLosingAny, Reads, Holds};
ghost use Rattle.state_fifo.specs.Alerts.{alert_bits, alerts_of, alerted_from};

use state::{Chip, LOST_SUM, READ, WRITE};

// The byte at `k` of those held, the first to leave at 0; 0 where there are no more than `k`.
pub fn argument(chip: &Chip, k: u8) -> u8
    ensures { Reads (argument k) chip.now result }
{
    if k < chip.held() {
        let slot = (chip.state[READ].wrapping_add(k) % 64) as usize;
        return chip.slots[slot];
    }
    0
}

// No byte is held.
pub fn emptied(chip: &mut Chip)
    ensures turns { Turns (with_held []) chip.old chip.new }
    ensures others { TurnsAny state_part (with_held []) chip.old chip.new }
    ensures rest { chip.new ≡ with_state chip.new.state chip.old }
{
    chip.state[READ] = chip.state[WRITE];
}

// The first `count` bytes leave, or all where fewer are held.
pub fn taken(chip: &mut Chip, count: u8)
    ensures turns { Turns (taken count) chip.old chip.new }
    ensures others { TurnsAny state_part (taken count) chip.old chip.new }
    ensures rest { chip.new ≡ with_state chip.new.state chip.old }
{
    if chip.held() <= count {
        emptied(chip);
        return;
    }
    chip.state[READ] = chip.state[READ].wrapping_add(count);
}

// A byte is lost: FIFOOvfl is set, and the sum of lost bytes is one more, up to 65,535.
fn one_lost(chip: &mut Chip)
    ensures turns { Turns one_lost chip.old chip.new }
    ensures others { TurnsAny numbers_state one_lost chip.old chip.new }
    ensures rest { chip.new ≡ with_numbers chip.new.numbers (with_state chip.new.state chip.old) }
{
    chip.failed(0x10);
    chip.numbers[LOST_SUM] = chip.numbers[LOST_SUM].saturating_add(1);
}

// A byte is stored behind those held, which are fewer than 64.
fn stored(chip: &mut Chip, byte: u8)
    ensures turns { (n : ℕ) → Holds chip.old.state n → n < 64 → Turns (offered byte) chip.old chip.new }
    ensures others { (n : ℕ) → Holds chip.old.state n → n < 64 → TurnsAny state_slots (offered byte) chip.old chip.new }
    ensures rest { chip.new ≡ with_state chip.new.state (with_slots chip.new.slots chip.old) }
{
    let write = chip.state[WRITE];
    let slot = (write % 64) as usize;
    chip.slots[slot] = byte;
    chip.state[WRITE] = write.wrapping_add(1);
}

// A byte is offered: it is stored behind those held, or lost where 64 or more are held. Answers how many bytes were lost.
pub fn offered(chip: &mut Chip, byte: u8) -> u8
    ensures turns { TurnsLosing (offered byte) lost_at chip.old chip.new result }
    ensures others { TurnsLosingAny numbers_state_slots (offered byte) lost_at chip.old chip.new result }
    ensures small { result ≤ 1 }
    ensures rest { chip.new ≡ with_numbers chip.new.numbers (with_state chip.new.state (with_slots chip.new.slots chip.old)) }
{
    if chip.held() >= 64 {
        one_lost(chip);
        return 1;
    }
    stored(chip, byte);
    0
}

// Bytes are offered in order. Answers how many were lost.
pub fn offered_all(chip: &mut Chip, bytes: &[u8]) -> usize
    ensures turns { TurnsLosing (offered_all bytes.now) (lost_of bytes.now) chip.old chip.new result }
    ensures others { TurnsLosingAny numbers_state_slots (offered_all bytes.now) (lost_of bytes.now) chip.old chip.new result }
    ensures small { result ≤ length bytes.now }
    ensures rest { chip.new ≡ with_numbers chip.new.numbers (with_state chip.new.state (with_slots chip.new.slots chip.old)) }
{
    let mut lost: usize = 0;
    for byte in bytes {
        lost += offered(chip, *byte) as usize;
    }
    lost
}

// FIFOLevel (29h), of which bits 5-0 are WaterLevel.
pub fn fifo_level(chip: &Chip) -> u8
    ensures { result ≡ slice_index chip.now.registers (0x29 - 0x10) }
{
    chip.registers[0x29 - 0x10]
}

// A flag's number, 0 or 1.
pub fn flag(set: bool) -> u8
    ensures is { result ≡ flag set }
    ensures small { result ≤ 1 }
{
    set as u8
}

// HiAlert and LoAlert in bits 1 and 0, by how many bytes are held. HiAlert's test, 64 - held ≤ WaterLevel, is turned around, so that no difference is
// below 0.
pub fn alerts(held: u8, level: u8) -> u8
    ensures is { result ≡ alert_bits held (level % 64) }
    ensures small { result ≤ 3 }
{
    let water = level % 64;
    2 * flag(64 - water <= held) + flag(held <= water)
}

// The alerts of the chip as it is.
pub fn alerts_of(chip: &Chip) -> u8
    ensures is { Reads alerts_of chip.now result }
    ensures small { result ≤ 3 }
{
    alerts(chip.held(), fifo_level(chip))
}

// An event is over: the requests for the alerts that are 1 now and were 0 before it.
pub fn alerted(chip: &mut Chip, before: u8)
    ensures turns { Turns (alerted_from before) chip.old chip.new }
    ensures others { TurnsAny state_registers (alerted_from before) chip.old chip.new }
    ensures rest { chip.new ≡ with_state chip.new.state chip.old }
{
    chip.requested(alerts_of(chip) & !before);
}

// A read of FIFOData: the first byte leaves, and the alerts are judged; 0 where none is held.
pub fn fifo_read(chip: &mut Chip) -> u8
    ensures reads { Reads (λ m. first_of m.held) chip.old result }
    ensures turns { Turns (λ m. alerted m (with_held (rest_of m.held) m)) chip.old chip.new }
    ensures others { TurnsAny state_registers_slots (λ m. alerted m (with_held (rest_of m.held) m)) chip.old chip.new }
    ensures rest { chip.new ≡ with_state chip.new.state chip.old }
{
    let count = chip.held();
    if count == 0 {
        return 0;
    }
    let read = chip.state[READ];
    let first = chip.slots[(read % 64) as usize];
    let level = fifo_level(chip);
    chip.state[READ] = read.wrapping_add(1);
    chip.requested(alerts(count - 1, level) & !alerts(count, level));
    first
}

// A write of FIFOData where the byte waits: it is stored, or lost, and the alerts are judged. Answers how many bytes were lost.
pub fn fifo_written(chip: &mut Chip, byte: u8) -> u8
    ensures turns { TurnsLosing (λ m. alerted m (offered byte m)) lost_at chip.old chip.new result }
    ensures others { TurnsLosingAny numbers_state_registers_slots (λ m. alerted m (offered byte m)) lost_at chip.old chip.new result }
    ensures rest { chip.new ≡ with_numbers chip.new.numbers (with_state chip.new.state (with_slots chip.new.slots chip.old)) }
{
    let count = chip.held();
    if count >= 64 {
        one_lost(chip);
        return 1;
    }
    let level = fifo_level(chip);
    stored(chip, byte);
    chip.requested(alerts(count + 1, level) & !alerts(count, level));
    0
}

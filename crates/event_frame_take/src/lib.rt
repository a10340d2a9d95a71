// The take of a frame that the chip sends (manual 9.5): it goes to the front of a buffer that has room for the longest, 66 bytes.

#![tactic(auto)]

ghost use Rattle.std.specs.Prelude.{◌+◌, ◌≤◌, ◌≡◌, ◌++◌, length, take};
ghost use Rattle.machine.specs.Refusals.{take_frame};
ghost use Rattle.machine.specs.Frames.{frame_sent};
ghost use Rattle.state.specs.View.{view, held_from, with_clocks, with_state};
ghost use Rattle.state.specs.Answers.{PromisesAnswer, frame_answer};
ghost use Rattle.event_frame_take.specs.Front.{at_front, Put, checksum_bytes};

use sent::taken;
use state::{BIT_FRAMING, Chip, Frame, POWER_DOWN, READ, Refusal, STAND_BY, modes_word};
use state_formed::well_formed;

mod sent; // sent.rt: what the chip is once its frame is taken

// Held bytes, the first in a position's slot, go to the front of a buffer.
fn put_held(slots: &[u8; 64], position: u8, count: usize, buffer: &mut [u8])
    requires { count ≤ length buffer.old }
    ensures { let bytes = held_from slots.now position count in
        buffer.new ≡ at_front bytes buffer.old }
{
    let start = position as usize;
    for i in 0..count {
        buffer[i] = slots[(start + i) % 64];
    }
}

// The checksum of a buffer's first bytes goes behind them: one byte for CRC8, else two, the low one first. Answers where it ends.
fn put_crc(redundancy: u8, lsb: u8, msb: u8, end: usize, buffer: &mut [u8]) -> usize
    requires { end + 2 ≤ length buffer.old }
    ensures puts { let bytes = take end buffer.old in
        Put (bytes ++ checksum_bytes redundancy lsb msb bytes) buffer.old result buffer.new }
    ensures few { result ≤ end + 2 }
{
    let sum = crc::checksum(redundancy, lsb, msb, &buffer[..end]);
    let last = end + 1;
    buffer[end] = (sum % 256) as u8;
    if redundancy / 16 % 2 == 1 {
        return last;
    }
    buffer[last] = (sum / 256) as u8;
    end + 2
}

// The frame sent goes to the front of a buffer: what is held, and its checksum where one is added (22h bit 2, and no last bits in BitFraming). Answers its
// length. At most 64 bytes are taken for held ones, whatever the positions are; a well-formed chip holds no more.
fn frame_into(chip: &Chip, buffer: &mut [u8]) -> usize
    requires { 66 ≤ length buffer.old }
    ensures puts { length (view chip.now).held ≤ 64 → Put (frame_sent (view chip.now)) buffer.old result buffer.new }
    ensures few { result ≤ 66 }
{
    let count = chip.held().min(64) as usize;
    put_held(&chip.slots, chip.state[READ], count, buffer);
    let redundancy = chip.registers[0x22 - 0x10];
    if redundancy / 4 % 2 != 1 {
        return count;
    }
    if chip.state[BIT_FRAMING] % 8 != 0 {
        return count;
    }
    put_crc(
        redundancy,
        chip.registers[0x23 - 0x10],
        chip.registers[0x24 - 0x10],
        count,
        buffer,
    )
}

// A take, with its refusals in their order. Answers the frame's length, and the last bits.
pub fn take(chip: &mut Chip, buffer: &mut [u8]) -> Result<Frame, Refusal>
    ensures turns { PromisesAnswer frame_answer chip.old (take_frame buffer.old) chip.new result buffer.new }
    ensures rest { chip.new ≡ with_clocks chip.new.clocks (with_state chip.new.state chip.old) }
{
    if !well_formed(chip) {
        return Err(Refusal::Malformed);
    }
    if buffer.len() < 66 {
        return Err(Refusal::BufferLength);
    }
    if !chip.frame_waits() {
        return Err(Refusal::NotNow);
    }
    if modes_word(chip.numbers[STAND_BY], chip.numbers[POWER_DOWN]) != 0 {
        return Err(Refusal::NotNow);
    }
    let last_bits = chip.state[BIT_FRAMING] % 8;
    let count = frame_into(chip, buffer);
    taken(chip);
    Ok(Frame {
        length: count as u8,
        last_bits,
    })
}

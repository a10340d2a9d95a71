// A write to a register, by its address after mapping: to every one but Command (01h) and FIFOData (02h). The alerts are judged over it: only FlushFIFO and a
// write to FIFOLevel (29h) can move them.

#![tactic(auto)]

ghost use Rattle.std.specs.Prelude.{◌/◌, ◌<◌, ◌≡◌};
ghost use Rattle.machine.specs.Fifo.{flushed, alerted};
ghost use Rattle.machine.specs.Registers.{interrupts_written, register_written};
ghost use Rattle.state.specs.View.{interrupts_of, with_clocks, with_numbers, with_registers, with_state};
ghost use Rattle.state.specs.Parts.{clocks_numbers_state, clocks_numbers_state_registers, numbers_state_registers, state_registers};
ghost use Rattle.state.specs.Turns.{Turns, TurnsAny};
ghost use Rattle.register_write.specs.Written.{other_written, ModeWritten, both_written};

use state::{
    BIT_FRAMING, CONTROL, Chip, ENABLES, LOST_SUM, PAGE, POWER_DOWN, REQUESTS, STAND_BY,
    control_byte,
};
use state_fifo::{alerted, alerts_of, emptied};
use state_timer::{timer_started, timer_stopped};

// InterruptEn and InterruptRq written: with bit 7 the marked bits of 5-0 are set, without it they are cleared. Bits 7 and 6 stay.
fn marked_bits(old: u8, v: u8) -> u8
    ensures written { interrupts_of result ≡ interrupts_written v (interrupts_of old) }
    ensures kept { result / 64 ≡ old / 64 }
{
    let marks = v % 64;
    if v / 128 % 2 == 1 {
        old | marks
    } else {
        old & !marks
    }
}

// FIFOLevel is written, and the alerts are judged by the new WaterLevel.
fn level_written(chip: &mut Chip, v: u8)
    ensures turns { Turns (λ m. alerted m (register_written 0x29 v m)) chip.old chip.new }
    ensures others { TurnsAny state_registers (λ m. alerted m (register_written 0x29 v m)) chip.old chip.new }
    ensures rest { chip.new ≡ with_state chip.new.state (with_registers chip.new.registers chip.old) }
{
    let before = alerts_of(chip);
    chip.registers[0x29 - 0x10] = v;
    alerted(chip, before);
}

// FlushFIFO: no byte is held, FIFOOvfl and the sum of lost bytes are cleared, and the alerts are judged.
fn flushed(chip: &mut Chip)
    ensures turns { Turns (λ m. alerted m (flushed m)) chip.old chip.new }
    ensures others { TurnsAny numbers_state_registers (λ m. alerted m (flushed m)) chip.old chip.new }
    ensures rest { chip.new ≡ with_numbers chip.new.numbers (with_state chip.new.state chip.old) }
{
    let before = alerts_of(chip);
    emptied(chip);
    chip.cleared(0x10);
    chip.numbers[LOST_SUM] = 0;
    alerted(chip, before);
}

// A power mode: its bit of Control, and its number.
#[derive(Clone, Copy)]
struct Mode {
    bit: bool,
    number: u16,
}

impl Mode {
    // The mode after a write to its bit. From off it takes hold, or waits for a programming. One that waits goes on by a 1, and is off by a 0. One with hold keeps
    // its bit until it is left: by a 1 it has hold and no leaving, and by a 0 its leaving begins, if it has not begun.
    fn written(self, bit: bool, programs: bool, begun: u16) -> Mode
        ensures { 0x8000 < begun → ModeWritten self bit programs begun result }
    {
        if !self.bit {
            let number = if bit & !programs { 0x8000 } else { 0 };
            return Mode { bit, number };
        }
        if self.number < 0x8000 {
            return Mode { bit, number: 0 };
        }
        if bit {
            return Mode {
                bit: true,
                number: 0x8000,
            };
        }
        if self.number == 0x8000 {
            return Mode {
                bit: true,
                number: begun,
            };
        }
        self
    }
}

// StandBy and PowerDown (manual 9.10), each by its own bit of the byte written. Nothing is to be done where both are off and stay so.
fn modes_written(chip: &mut Chip, v: u8)
    ensures turns { Turns (both_written v) chip.old chip.new }
    ensures others { TurnsAny clocks_numbers_state (both_written v) chip.old chip.new }
    ensures rest { chip.new ≡ with_numbers chip.new.numbers (with_state chip.new.state chip.old) }
{
    let control = chip.state[CONTROL];
    if (control == 0) & (v / 16 % 4 == 0) {
        return;
    }
    let programs = chip.programs();
    let standby = Mode {
        bit: control / 32 % 2 == 1,
        number: chip.numbers[STAND_BY],
    };
    let powerdown = Mode {
        bit: control / 16 % 2 == 1,
        number: chip.numbers[POWER_DOWN],
    };
    let high = v / 32 % 2 == 1;
    let low = v / 16 % 2 == 1;
    let first = standby.written(high, programs, 0x8004);
    let second = powerdown.written(low, programs, 0x8200);
    chip.numbers[STAND_BY] = first.number;
    chip.numbers[POWER_DOWN] = second.number;
    chip.state[CONTROL] = control_byte(first.bit, second.bit);
}

// Control is written (manual 2.4): the FIFO is flushed, the timer stopped and then started, as bits 0, 2 and 1 say; bits 5 and 4 are the power modes'.
fn control_written(chip: &mut Chip, v: u8)
    ensures turns { Turns (λ m. alerted m (register_written 0x09 v m)) chip.old chip.new }
    ensures others { TurnsAny clocks_numbers_state_registers (λ m. alerted m (register_written 0x09 v m)) chip.old chip.new }
    ensures rest { chip.new ≡ with_clocks chip.new.clocks (with_numbers chip.new.numbers (with_state chip.new.state chip.old)) }
{
    if v % 2 == 1 {
        flushed(chip);
    }
    if v / 4 % 2 == 1 {
        timer_stopped(chip);
    }
    if v / 2 % 2 == 1 {
        timer_started(chip);
    }
    modes_written(chip, v);
}

// Page is stored with its bits 7 and 2-0, at every eighth address; 10h-2Fh are stored whole. Nothing is done at Command and FIFOData, and at the registers
// that a write does not change.
pub fn register_written(chip: &mut Chip, register: u8, v: u8)
    ensures turns { Turns (λ m. alerted m (other_written register v m)) chip.old chip.new }
    ensures others { TurnsAny clocks_numbers_state_registers (λ m. alerted m (other_written register v m)) chip.old chip.new }
    ensures rest { chip.new ≡ with_clocks chip.new.clocks (with_numbers chip.new.numbers (with_state chip.new.state (with_registers chip.new.registers chip.old))) }
{
    if register % 8 == 0 {
        chip.state[PAGE] = 128 * (v / 128 % 2) + v % 8;
        return;
    }
    if register >= 0x10 {
        if register == 0x29 {
            level_written(chip, v);
            return;
        }
        if register >= 0x30 {
            return;
        }
        chip.registers[(register - 0x10) as usize] = v;
        return;
    }
    match register {
        0x06 => {
            chip.state[ENABLES] = marked_bits(chip.state[ENABLES], v);
        }
        0x07 => {
            chip.state[REQUESTS] = marked_bits(chip.state[REQUESTS], v);
        }
        0x09 => control_written(chip, v),
        0x0F => {
            chip.state[BIT_FRAMING] = v;
        }
        _ => {}
    }
}

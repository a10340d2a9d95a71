// The timer by any number of clocks (manual 5.2).
ghost use Rattle.std.specs.Prelude.{◌+◌, ◌-◌, ◌/◌, ◌%◌, ◌^◌, ◌<◌, ◌≤◌, ◌≡◌, leb};
ghost use Rattle.state.specs.View.{with_clocks, with_state};
ghost use Rattle.machine.specs.ManyClocks.{timer_after};
ghost use Rattle.event_clock_advance.specs.Clock.{TurnsFormed};

use state::{Chip, PHASE, PRESCALER, RUNNING, VALUE};
use state_timer::{period, restarts, timer_stopped};

// How many steps so many clocks make: each 2^prescaler of them, with those of the step that has begun.
fn steps_made(phase: u32, by: u32, prescaler: u8) -> u64
    ensures { result ≡ (phase + by) / 2 ^ (prescaler % 32) }
{
    (phase as u64 + by as u64) / (period(prescaler) as u64)
}

// How many clocks of the next step there are then.
fn phase_after(phase: u32, by: u32, prescaler: u8) -> u32
    ensures { result ≡ (phase + by) % 2 ^ (prescaler % 32) }
{
    ((phase as u64 + by as u64) % (period(prescaler) as u64)) as u32
}

// So many steps bring a timer to its end.
fn comes_to_end(value: u8, steps: u64) -> bool
    ensures { result ≡ leb value steps }
{
    value as u64 <= steps
}

// The value before its end.
fn fallen(value: u8, steps: u64) -> u8
    requires { steps < value }
    ensures { result ≡ value - steps }
{
    value - steps as u8
}

// The value behind its end, of a timer that goes round TimerReload with the steps left over.
fn gone_round(value: u8, reload: u8, steps: u64) -> u8
    requires { (value ≤ steps) × (1 ≤ reload) }
    ensures { result ≡ reload - (steps - value) % reload }
{
    reload - ((steps - value as u64) % reload as u64) as u8
}

// So many clocks: the value falls by the steps that they make. A timer that comes to its end raises TimerIRq, and stops, or goes on with TAutoRestart.
pub fn timer_clocked(chip: &mut Chip, by: u32)
    ensures turns { TurnsFormed (timer_after by) chip.old chip.new }
    ensures rest { chip.new ≡ with_clocks chip.new.clocks (with_state chip.new.state chip.old) }
{
    if chip.state[RUNNING] != 1 {
        return;
    }
    let phase = chip.clocks[PHASE];
    let prescaler = chip.state[PRESCALER];
    let value = chip.state[VALUE];
    let steps = steps_made(phase, by, prescaler);
    let next = phase_after(phase, by, prescaler);
    if !comes_to_end(value, steps) {
        chip.clocks[PHASE] = next;
        chip.state[VALUE] = fallen(value, steps);
        return;
    }
    let reload = chip.registers[0x2C - 0x10];
    if restarts(chip.registers[0x2A - 0x10], reload) {
        chip.clocks[PHASE] = next;
        chip.state[VALUE] = gone_round(value, reload, steps);
        chip.requested(0x20);
        return;
    }
    timer_stopped(chip);
    chip.state[VALUE] = 0;
    chip.requested(0x20);
}

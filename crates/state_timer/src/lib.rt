// The timer in the state (manual 5): it is stopped, and it is started by the registers TimerClock (2Ah) and TimerReload (2Ch); the clocks of a
// step, and the restart.

#![tactic(auto)]

ghost use Rattle.std.specs.Prelude.{◌%◌, ◌^◌, ◌≤◌, not, ◌&&◌, ◌≡◌, eqb};
ghost use Rattle.bits.specs.Bits.{bit_set};
ghost use Rattle.machine.specs.State.{Timer, with_timer};
ghost use Rattle.machine.specs.Timer.{timer_stopped, timer_started};
ghost use Rattle.state.specs.View.{with_clocks, with_state};
ghost use Rattle.state.specs.Parts.{clocks_state, clocks_state_registers};
ghost use Rattle.state.specs.Turns.{Turns, TurnsAny};

use state::{Chip, PHASE, PRESCALER, RUNNING, VALUE};

// The timer is running or stopped, at a value and a prescaler; its phase is 0.
fn timer_set(chip: &mut Chip, running: bool, value: u8, prescaler: u8)
    ensures turns { let timer : Timer = record { running = running; value = value; prescaler = prescaler; phase = 0 } in
        Turns (with_timer timer) chip.old chip.new }
    ensures others { let timer : Timer = record { running = running; value = value; prescaler = prescaler; phase = 0 } in
        TurnsAny clocks_state (with_timer timer) chip.old chip.new }
    ensures rest { chip.new ≡ with_clocks chip.new.clocks (with_state chip.new.state chip.old) }
{
    chip.clocks[PHASE] = 0;
    chip.state[RUNNING] = running as u8;
    chip.state[PRESCALER] = prescaler;
    chip.state[VALUE] = value;
}

// The timer stops, and its value stays.
pub fn timer_stopped(chip: &mut Chip)
    ensures turns { Turns timer_stopped chip.old chip.new }
    ensures others { TurnsAny clocks_state timer_stopped chip.old chip.new }
    ensures rest { chip.new ≡ with_clocks chip.new.clocks (with_state chip.new.state chip.old) }
{
    let value = chip.state[VALUE];
    timer_set(chip, false, value, 0);
}

// TimerReload and TPreScaler are loaded; a reload of 0 and a prescaler above 21 stop the timer at 0.
pub fn timer_started(chip: &mut Chip)
    ensures turns { Turns timer_started chip.old chip.new }
    ensures others { TurnsAny clocks_state_registers timer_started chip.old chip.new }
    ensures rest { chip.new ≡ with_clocks chip.new.clocks (with_state chip.new.state chip.old) }
{
    let reload = chip.registers[0x2C - 0x10];
    let prescaler = chip.registers[0x2A - 0x10] % 32;
    if reload == 0 || 21 < prescaler {
        timer_set(chip, false, 0, 0);
    } else {
        timer_set(chip, true, reload, prescaler);
    }
}

// How many clocks a timer step has.
pub fn period(prescaler: u8) -> u32
    ensures is { result ≡ 2 ^ (prescaler % 32) }
    ensures some { 1 ≤ result }
{
    1u32 << (prescaler % 32)
}

// A timer at its end restarts: TAutoRestart is set, and TimerReload is not 0.
pub fn restarts(timer_clock: u8, reload: u8) -> bool
    ensures { result ≡ (bit_set timer_clock 5 && not (eqb reload 0)) }
{
    (timer_clock / 32 % 2 == 1) & (reload != 0)
}

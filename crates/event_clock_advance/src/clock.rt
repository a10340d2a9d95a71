// Any number of clocks (manual 9.4), by what happens in them: leavings of power modes end, the timer goes on by as many steps as they make, and at most six
// programmings end.
ghost use Rattle.std.specs.Prelude.{not, ◌&&◌, ◌≡◌, eqb, leb};
ghost use Rattle.state.specs.View.{with_clocks, with_eeprom, with_latch, with_numbers, with_state};
ghost use Rattle.machine.specs.Events.{clocks};
ghost use Rattle.event_clock_advance.specs.Clock.{TurnsFormed, TurnsReaching};

use crate::modes::{hold_taken, stands_still, stood};
use crate::programming::programmed;
use crate::timer::timer_clocked;
use state::{Chip, LEFT};

// A programming with so many clocks left ends within so many.
fn ends_within(left: u32, rest: u32) -> bool
    ensures { result ≡ (not (eqb left 0) && leb left rest) }
{
    (left != 0) & (left <= rest)
}

// So many clocks, where no power mode has hold. They are split at the end of each programming; where bytes wait the next one begins there. Where a mode has waited
// for the end it takes hold, and no further clock does anything.
fn clocked_reaching(chip: &mut Chip, by: u32)
    ensures turns { TurnsReaching (clocks by) chip.old chip.new }
    ensures rest { chip.new ≡ with_clocks chip.new.clocks (with_numbers chip.new.numbers (with_state chip.new.state (with_latch chip.new.latch (with_eeprom chip.new.eeprom chip.old)))) }
{
    let mut rest = by;
    let mut left = chip.clocks[LEFT];
    while ends_within(left, rest) {
        timer_clocked(chip, left);
        programmed(chip);
        hold_taken(chip);
        if stands_still(chip) {
            return;
        }
        rest -= left;
        left = chip.clocks[LEFT];
    }
    timer_clocked(chip, rest);
    if left == 0 {
        return;
    }
    chip.clocks[LEFT] = left - rest;
}

// So many clocks. Those that begin while a power mode has hold reach its leaving alone; the others are split at the ends of programmings.
pub fn clocked_times(chip: &mut Chip, by: u32)
    ensures turns { TurnsFormed (clocks by) chip.old chip.new }
    ensures rest { chip.new ≡ with_clocks chip.new.clocks (with_numbers chip.new.numbers (with_state chip.new.state (with_latch chip.new.latch (with_eeprom chip.new.eeprom chip.old)))) }
{
    let rest = stood(chip, by);
    if rest == 0 {
        return;
    }
    clocked_reaching(chip, rest);
}

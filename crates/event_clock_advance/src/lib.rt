// The clock advance on a chip lent (manual 9.4).

#![tactic(auto)]

ghost use Rattle.std.specs.Prelude.{◌≡◌, []};
ghost use Rattle.machine.specs.Refusals.{advance};
ghost use Rattle.state.specs.View.{with_clocks, with_eeprom, with_latch, with_numbers, with_state};
ghost use Rattle.state.specs.Answers.{PromisesAnswer, done_answer};

mod clock;
mod modes;
mod programming;
mod timer;

use clock::clocked_times;
use state::{Chip, Refusal};
use state_fifo::{alerted, alerts_of};
use state_formed::well_formed;

// An advance by any number of clocks: they reach the timer and the programming of WriteE2, but where a power mode has hold, and the alerts are judged over them
// all.
pub fn advance(chip: &mut Chip, by: u32) -> Result<(), Refusal>
    ensures turns { PromisesAnswer done_answer chip.old (advance by) chip.new result [] }
    ensures rest { chip.new ≡ with_clocks chip.new.clocks (with_numbers chip.new.numbers (with_state chip.new.state (with_latch chip.new.latch (with_eeprom chip.new.eeprom chip.old)))) }
{
    if !well_formed(chip) {
        return Err(Refusal::Malformed);
    }
    let before = alerts_of(chip);
    clocked_times(chip, by);
    alerted(chip, before);
    Ok(())
}

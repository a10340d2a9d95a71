// What the chip is once its frame is taken: the FIFO is empty, the timer is started where TimerControl says so, TxIRq is set, the command ends or receives,
// and the alerts are judged over that.
ghost use Rattle.std.specs.Prelude.{◌≡◌};
ghost use Rattle.machine.specs.Frames.{tx_begun, tx_ended, after_sending};
ghost use Rattle.machine.specs.Events.{taken};
ghost use Rattle.state.specs.View.{with_clocks, with_state};
ghost use Rattle.state.specs.Turns.{Turns};

use state::{Chip, STAGE, TRANSCEIVE_RECEIVING, TRANSCEIVE_SENDING};
use state_fifo::{alerted, alerts_of, emptied};
use state_timer::timer_started;

// A frame begins and ends: the timer is started where bit 0 or bit 1 of TimerControl (2Bh) is set. To start it at both is to start it once.
fn begun_and_ended(chip: &mut Chip)
    ensures turns { Turns (λ m. tx_ended (tx_begun m)) chip.old chip.new }
    ensures rest { chip.new ≡ with_clocks chip.new.clocks (with_state chip.new.state chip.old) }
{
    if chip.registers[0x2B - 0x10] % 4 == 0 {
        return;
    }
    timer_started(chip);
}

// A Transceive that sends receives after its frame, and any other command ends.
fn after_sending(chip: &mut Chip)
    ensures turns { Turns (λ m. after_sending m.command m) chip.old chip.new }
    ensures rest { chip.new ≡ with_clocks chip.new.clocks (with_state chip.new.state chip.old) }
{
    if chip.state[STAGE] == TRANSCEIVE_SENDING {
        chip.state[STAGE] = TRANSCEIVE_RECEIVING;
        return;
    }
    chip.ended();
}

// The frame is taken.
pub fn taken(chip: &mut Chip)
    ensures turns { Turns taken chip.old chip.new }
    ensures rest { chip.new ≡ with_clocks chip.new.clocks (with_state chip.new.state chip.old) }
{
    let before = alerts_of(chip);
    emptied(chip);
    begun_and_ended(chip);
    chip.requested(0x10);
    after_sending(chip);
    alerted(chip, before);
}

// The end of a programming that WriteE2 has started (manual 6.3).
ghost use Rattle.std.specs.Prelude.{◌≡◌};
ghost use Rattle.state.specs.View.{at, with_clocks, with_eeprom, with_latch, with_numbers, with_state};
ghost use Rattle.event_clock_advance.specs.Clock.{stored_wrapped, programming_ended, TurnsAgreeing};

use command_write_e2::{batch_start, bytes_latched};
use state::{Chip, LATCHED, LEFT, NEXT, STAGE, WRITE_E2_ADDRESSED};

// Stores the first latched bytes from an address on. An index is kept inside its array by a remainder.
#[tactic(auto, unfolding(crate::specs::Clock::stored_wrapped))]
fn store_batch(eeprom: &mut [u8; 512], latch: &[u8; 16], address: u16, count: u8)
    ensures { let stored = stored_wrapped eeprom.old latch.now address count in
        eeprom.new ≡ stored }
{
    let start = address as usize;
    for i in 0..count as usize {
        let to = (start + i) % 512;
        let from = i % 16;
        eeprom[to] = latch[from];
    }
}

// A programming ends: its bytes are stored, and the next byte goes behind them. TxIRq is set where no byte is held; else WriteE2 goes on with those that are.
pub fn programmed(chip: &mut Chip)
    ensures turns { (at chip.old.clocks 1 ≡ 0 → ⊥) → TurnsAgreeing programming_ended chip.old chip.new }
    ensures rest { chip.new ≡ with_clocks chip.new.clocks (with_numbers chip.new.numbers (with_state chip.new.state (with_latch chip.new.latch (with_eeprom chip.new.eeprom chip.old)))) }
{
    let latched = chip.state[LATCHED];
    let waiting = chip.held();
    let start = batch_start(chip.numbers[NEXT], latched);
    store_batch(&mut chip.eeprom, &chip.latch, start, latched);
    chip.clocks[LEFT] = 0;
    chip.state[LATCHED] = 0;
    chip.state[STAGE] = WRITE_E2_ADDRESSED;
    if waiting == 0 {
        chip.requested(0x10);
        return;
    }
    bytes_latched(chip);
}

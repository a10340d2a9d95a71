// The six events by value: the chip is passed in, and handed back with the answer. Each is the event on a chip of its own. So is the call for the sum of lost bytes,
// which hands no chip back, since it changes none. `whole` says for the proof what the chip is by its types.

#![tactic(auto)]

ghost use Rattle.std.specs.Prelude.{◌≡◌, []};
ghost use Rattle.machine.specs.Refusals.{start, host_read, host_write, advance, take_frame, deliver};
ghost use Rattle.state.specs.Meets.{Meets};
ghost use Rattle.state.specs.LostSum.{lost_sum_of};

use state::{Chip, Coded};

// What an event by value gives back: the next chip, and the number answered.
// Kept: the answer is a number, as the clauses of `Promised` (journal_runs) have it for both forms.
#[derive(Clone, Copy)]
pub struct Outcome {
    pub chip: Chip,
    pub answer: u32,
}

// A start from an EEPROM image, whatever the chip was.
pub fn start(chip: Chip, image: &[u8]) -> Outcome
    ensures { Meets chip (start image.now) result.chip result.answer [] }
{
    entry_walk::whole(&chip);
    let mut next = chip;
    let started = event_image_start::start(&mut next, image).code();
    Outcome {
        chip: next,
        answer: started,
    }
}

// A host read of an address.
pub fn host_read(chip: Chip, address: u8) -> Outcome
    ensures { Meets chip (host_read address) result.chip result.answer [] }
{
    entry_walk::whole(&chip);
    let mut next = chip;
    let read = event_host_read::host_read(&mut next, address).code();
    Outcome {
        chip: next,
        answer: read,
    }
}

// A host write of a byte to an address.
pub fn host_write(chip: Chip, address: u8, v: u8) -> Outcome
    ensures { Meets chip (host_write address v) result.chip result.answer [] }
{
    entry_walk::whole(&chip);
    let mut next = chip;
    let written = event_host_write::host_write(&mut next, address, v).code();
    Outcome {
        chip: next,
        answer: written,
    }
}

// An advance by clocks.
pub fn advance(chip: Chip, by: u32) -> Outcome
    ensures { Meets chip (advance by) result.chip result.answer [] }
{
    entry_walk::whole(&chip);
    let mut next = chip;
    let advanced = event_clock_advance::advance(&mut next, by).code();
    Outcome {
        chip: next,
        answer: advanced,
    }
}

// A take of the frame that the chip sends, into a buffer.
pub fn take(chip: Chip, buffer: &mut [u8]) -> Outcome
    ensures { Meets chip (take_frame buffer.old) result.chip result.answer buffer.new }
{
    entry_walk::whole(&chip);
    let mut next = chip;
    let taken = event_frame_take::take(&mut next, buffer).code();
    Outcome {
        chip: next,
        answer: taken,
    }
}

// A delivery of a frame that the chip receives.
pub fn deliver(chip: Chip, bytes: &[u8], parities: &[u8], last_bits: u8) -> Outcome
    ensures { let call = deliver bytes.now parities.now last_bits in
        Meets chip call result.chip result.answer [] }
{
    entry_walk::whole(&chip);
    let mut next = chip;
    let delivered = event_frame_deliver::deliver(&mut next, bytes, parities, last_bits).code();
    Outcome {
        chip: next,
        answer: delivered,
    }
}

// The sum of lost bytes.
pub fn lost_sum(chip: Chip) -> u32
    ensures { result ≡ lost_sum_of chip }
{
    entry_walk::whole(&chip);
    query_lost_sum::sum_number(query_lost_sum::lost_sum(&chip))
}

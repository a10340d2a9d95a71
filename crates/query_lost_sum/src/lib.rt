// The call for the sum of lost bytes of a chip (manual 9.9). It is no event: it changes nothing, and takes no time.

#![tactic(auto)]

ghost use Rattle.std.specs.Prelude.{◌≡◌};
ghost use Rattle.state.specs.Turns.{Sizes};
ghost use Rattle.state.specs.LostSum.{lost_sum_of};
ghost use Rattle.query_lost_sum.specs.Number.{sum_number};

use state::{Chip, LOST_SUM, Refusal};
use state_formed::well_formed;

// The number that stands for an answer: the sum in bits 23-8, or the refusal.
pub fn sum_number(sum: Result<u16, Refusal>) -> u32
    ensures { result ≡ sum_number sum }
{
    match sum {
        Ok(sum) => 0x100 * sum as u32,
        Err(refusal) => u32::from(refusal),
    }
}

// The sum. A malformed chip is refused; FIFOOvfl and the sum are not judged against each other.
#[tactic(auto, unfolding(state::specs::LostSum::lost_sum_of, state::specs::View::view_of))]
pub fn lost_sum(chip: &Chip) -> Result<u16, Refusal>
    ensures { Sizes chip.now → sum_number result ≡ lost_sum_of chip.now }
{
    if !well_formed(chip) {
        return Err(Refusal::Malformed);
    }
    Ok(chip.numbers[LOST_SUM])
}

// A host read on a chip lent (manual 9.2): what an address reads, and the byte that a read of FIFOData removes.

#![tactic(auto)]

ghost use Rattle.std.specs.Prelude.{◌≡◌, []};
ghost use Rattle.machine.specs.Refusals.{host_read};
ghost use Rattle.state.specs.View.{with_state};
ghost use Rattle.state.specs.Answers.{PromisesAnswer, byte_answer};

mod registers;
mod status;

use register_mapping::mapped;
use registers::read;
use state::{Byte, Chip, PAGE, Refusal};
use state_fifo::fifo_read;
use state_formed::well_formed;
use status::primary_status;

// A host read: refusals in their order, and the register's byte; a read of FIFOData removes it. PrimaryStatus, which a host polls, is asked for first.
pub fn host_read(chip: &mut Chip, address: u8) -> Result<Byte, Refusal>
    ensures turns { PromisesAnswer byte_answer chip.old (host_read address) chip.new result [] }
    ensures rest { chip.new ≡ with_state chip.new.state chip.old }
{
    if !well_formed(chip) {
        return Err(Refusal::Malformed);
    }
    if address >= 64 {
        return Err(Refusal::Address);
    }
    let register = mapped(chip.state[PAGE], address);
    if register == 0x03 {
        return Ok(Byte(primary_status(chip)));
    }
    if register == 0x02 {
        return Ok(Byte(fifo_read(chip)));
    }
    Ok(Byte(read(chip, register)))
}

// The arguments of a command (manual 7.1): the address that waits in the FIFO, and any number of held bytes.

#![tactic(auto)]

ghost use Rattle.std.specs.Prelude.{◌≡◌, length};
ghost use Rattle.machine.specs.Memory.{address_of};
ghost use Rattle.machine.specs.Commands.{argument};
ghost use Rattle.state.specs.View.{held_from};
ghost use Rattle.state.specs.Turns.{Reads};

use state::Chip;
use state_fifo::argument;

// The address that the first two held bytes are, the low one first, mod 200h.
pub fn address(chip: &Chip) -> u16
    ensures { Reads (λ m. address_of (argument 0 m) (argument 1 m)) chip.now result }
{
    u16::from_le_bytes([argument(chip, 0), argument(chip, 1)]) % 0x200
}

// Fills a slice with held bytes, the first from a position on. A position is added to with eight-bit wrap, as the FIFO's are.
pub fn held_copied(slots: &[u8; 64], position: u8, bytes: &mut [u8])
    ensures { bytes.new ≡ held_from slots.now position (length bytes.old) }
{
    let mut from = position;
    for byte in bytes.iter_mut() {
        *byte = slots[(from % 64) as usize];
        from = from.wrapping_add(1);
    }
}

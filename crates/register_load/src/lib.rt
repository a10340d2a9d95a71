// Registers 10h-2Fh are loaded from the EEPROM, at a start and by LoadConfig (manual 9.1, 7.4).

#![tactic(auto)]

ghost use Rattle.std.specs.Prelude.{◌≡◌};
ghost use Rattle.machine.specs.Memory.{over_registers};
ghost use Rattle.state.specs.View.{with_registers};
ghost use Rattle.register_load.specs.Wrapped.{wrapped_from};

use state::Chip;

// Loads registers 10h-2Fh from an address on, Page positions skipped. An address is kept inside the EEPROM by a remainder, so that every one is safe.
pub fn load_registers(chip: &mut Chip, address: u16)
    ensures { let bytes = wrapped_from chip.old.eeprom address 32 in
        chip.new ≡ with_registers (over_registers 0 chip.old.registers bytes) chip.old }
{
    let start = address as usize;
    // Kept: each eighth place is left out, and an address goes on at 000h: by parts of the memory this is no plainer.
    for i in 0..32 {
        if i % 8 != 0 {
            let from = (start + i) % 512;
            chip.registers[i] = chip.eeprom[from];
        }
    }
}

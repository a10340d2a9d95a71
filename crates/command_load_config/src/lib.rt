// LoadConfig (manual 7.4): the registers that it loads from the EEPROM, and its step.
//
// The step waits until its address is held, then takes it and ends. Its contract holds whatever command is active; `command_work` chooses by the stage.

#![tactic(auto)]

ghost use Rattle.std.specs.Prelude.{◌≡◌};
ghost use Rattle.machine.specs.State.{LoadConfig};
ghost use Rattle.machine.specs.Commands.{configured_from, stepped_as};
ghost use Rattle.state.specs.View.{with_clocks, with_registers, with_state};
ghost use Rattle.state.specs.Parts.{clocks_state_registers_slots_eeprom, state_registers_eeprom};
ghost use Rattle.state.specs.Turns.{Turns, TurnsAny};

use command_arguments::address;
use register_load::load_registers;
use state::Chip;
use state_fifo::taken;

// The registers are loaded from an address on; an address that is not 010h to 060h gives AccessErr.
fn configured_from(chip: &mut Chip, address: u16)
    ensures turns { Turns (configured_from address) chip.old chip.new }
    ensures others { TurnsAny state_registers_eeprom (configured_from address) chip.old chip.new }
    ensures rest { chip.new ≡ with_state chip.new.state (with_registers chip.new.registers chip.old) }
{
    if (0x10 <= address) & (address <= 0x60) {
        load_registers(chip, address);
        return;
    }
    chip.failed(0x20);
}

// LoadConfig: an address.
pub fn load_config(chip: &mut Chip)
    ensures turns { Turns (stepped_as LoadConfig) chip.old chip.new }
    ensures others { TurnsAny clocks_state_registers_slots_eeprom (stepped_as LoadConfig) chip.old chip.new }
    ensures rest { chip.new ≡ with_clocks chip.new.clocks (with_state chip.new.state (with_registers chip.new.registers chip.old)) }
{
    if chip.held() < 2 {
        return;
    }
    let from = address(chip);
    taken(chip, 2);
    configured_from(chip, from);
    chip.ended();
}

// LoadKey and LoadKeyE2 (manual 7.5): the key that they load, and their steps.
//
// A step waits until all its arguments are held, then takes them and ends. Its contract holds whatever command is active.

#![tactic(auto)]

ghost use Rattle.std.specs.Prelude.{◌≤◌, ◌≡◌, length};
ghost use Rattle.machine.specs.State.{LoadKeyE2, LoadKey};
ghost use Rattle.machine.specs.Memory.{bytes_from};
ghost use Rattle.machine.specs.Commands.{key_judged, key_from, stepped_as};
ghost use Rattle.state.specs.View.{at, held_from, with_clocks, with_key, with_state};
ghost use Rattle.state.specs.Parts.{clocks_state_slots_key, clocks_state_slots_key_eeprom, state_key, state_key_eeprom};
ghost use Rattle.state.specs.Turns.{Turns, TurnsAny};
ghost use Rattle.command_load_key.specs.Emptied.{key_emptied};

use command_arguments::{address, held_copied};
use key::key_of;
use state::{Chip, KEY_LOADED, READ};
use state_fifo::taken;

// The first twelve held bytes.
fn held_key(chip: &Chip) -> [u8; 12]
    ensures { result ≡ held_from chip.now.slots (at chip.now.state 13) 12 }
{
    let mut bytes = [0u8; 12];
    held_copied(&chip.slots, chip.state[READ], &mut bytes);
    bytes
}

// Twelve bytes of the EEPROM from an address on.
fn stored_key(eeprom: &[u8; 512], address: u16) -> [u8; 12]
    requires { address ≤ 0x1F4 }
    ensures { let memory = eeprom.now in
        (length memory ≡ 512 → result ≡ bytes_from memory address 12) }
{
    let start = address as usize;
    let mut bytes = [0u8; 12];
    bytes.copy_from_slice(&eeprom[start..start + 12]);
    bytes
}

// KeyErr is set, and no key is loaded.
fn key_emptied(chip: &mut Chip)
    ensures turns { Turns key_emptied chip.old chip.new }
    ensures others { TurnsAny state_key key_emptied chip.old chip.new }
    ensures rest { chip.new ≡ with_state chip.new.state (with_key chip.new.key chip.old) }
{
    chip.key = [0u8; 6];
    chip.state[KEY_LOADED] = 0;
    chip.failed(0x40);
}

// Twelve bytes are judged: the key that they stand for, or KeyErr and none.
fn key_judged(chip: &mut Chip, bytes: [u8; 12])
    ensures turns { Turns (key_judged bytes) chip.old chip.new }
    ensures others { TurnsAny state_key (key_judged bytes) chip.old chip.new }
    ensures rest { chip.new ≡ with_state chip.new.state (with_key chip.new.key chip.old) }
{
    match key_of(bytes) {
        Some(made) => {
            chip.key = made;
            chip.state[KEY_LOADED] = 1;
        }
        None => key_emptied(chip),
    }
}

// The twelve bytes of the EEPROM from an address on are judged; an address above 1F4h gives KeyErr and no key.
fn key_from(chip: &mut Chip, address: u16)
    ensures turns { Turns (key_from address) chip.old chip.new }
    ensures others { TurnsAny state_key_eeprom (key_from address) chip.old chip.new }
    ensures rest { chip.new ≡ with_state chip.new.state (with_key chip.new.key chip.old) }
{
    if address > 0x1F4 {
        key_emptied(chip);
        return;
    }
    let bytes = stored_key(&chip.eeprom, address);
    key_judged(chip, bytes);
}

// LoadKeyE2: an address.
pub fn load_key_e2(chip: &mut Chip)
    ensures turns { Turns (stepped_as LoadKeyE2) chip.old chip.new }
    ensures others { TurnsAny clocks_state_slots_key_eeprom (stepped_as LoadKeyE2) chip.old chip.new }
    ensures rest { chip.new ≡ with_clocks chip.new.clocks (with_state chip.new.state (with_key chip.new.key chip.old)) }
{
    if chip.held() < 2 {
        return;
    }
    let from = address(chip);
    taken(chip, 2);
    key_from(chip, from);
    chip.ended();
}

// LoadKey: twelve bytes, which are judged.
pub fn load_key(chip: &mut Chip)
    ensures turns { Turns (stepped_as LoadKey) chip.old chip.new }
    ensures others { TurnsAny clocks_state_slots_key (stepped_as LoadKey) chip.old chip.new }
    ensures rest { chip.new ≡ with_clocks chip.new.clocks (with_state chip.new.state (with_key chip.new.key chip.old)) }
{
    if chip.held() < 12 {
        return;
    }
    let bytes = held_key(chip);
    taken(chip, 12);
    key_judged(chip, bytes);
    chip.ended();
}

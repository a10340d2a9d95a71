// What the active command does with waiting bytes (manual 7), by its stage.

#![tactic(auto)]

ghost use Rattle.std.specs.Prelude.{◌≡◌, ◌≤◌};
ghost use Rattle.machine.specs.Commands.{settled, lost_settling};
ghost use Rattle.state.specs.Turns.{TurnsLosing};

use command_calc_crc::calc_crc;
use command_load_config::load_config;
use command_load_key::{load_key, load_key_e2};
use command_read_e2::read_e2;
use command_write_e2::{address_taken, bytes_latched};
use state::{
    CALC_CRC, Chip, LEFT, LOAD_CONFIG, LOAD_KEY, LOAD_KEY_E2, READ_E2, STAGE, WRITE_E2,
    WRITE_E2_ADDRESSED,
};

// All that it does at once: WriteE2 takes its address and then latches bytes, every other command needs one step. Idle and the commands that send or receive
// take no waiting byte here, and neither does a WriteE2 that programs. Answers how many bytes were lost: only ReadE2 offers any.
pub fn worked(chip: &mut Chip) -> u8
    ensures turns { TurnsLosing settled lost_settling chip.old chip.new result }
    ensures small { result ≤ 128 }
    ensures rest { chip.new.eeprom ≡ chip.old.eeprom }
{
    // Kept: a table of closures by the stage would name each command twice.
    match chip.state[STAGE] {
        WRITE_E2 => {
            if chip.clocks[LEFT] != 0 {
                return 0;
            }
            if chip.held() < 2 {
                return 0;
            }
            address_taken(chip);
            bytes_latched(chip);
            0
        }
        WRITE_E2_ADDRESSED => {
            if chip.clocks[LEFT] != 0 {
                return 0;
            }
            bytes_latched(chip);
            0
        }
        READ_E2 => read_e2(chip),
        LOAD_CONFIG => {
            load_config(chip);
            0
        }
        LOAD_KEY_E2 => {
            load_key_e2(chip);
            0
        }
        CALC_CRC => {
            calc_crc(chip);
            0
        }
        LOAD_KEY => {
            load_key(chip);
            0
        }
        _ => 0,
    }
}

// A write to Command (manual 7.1): the old command ends and the written code is started, or the write is ignored while programming runs. What the
// new command does with bytes that wait already is no part of it.

#![tactic(auto)]

ghost use Rattle.std.specs.Prelude.{◌≡◌, true, MatchOption};
ghost use Rattle.machine.specs.State.{with_command};
ghost use Rattle.machine.specs.Commands.{checksum_started, command_started, command_written};
ghost use Rattle.state.specs.View.{with_clocks, with_numbers, with_state};
ghost use Rattle.state.specs.Parts.{clocks_numbers_state_registers, clocks_state, numbers_state_registers};
ghost use Rattle.state.specs.Turns.{Turns, TurnsAny};
ghost use Rattle.command_begin.specs.Begins.{begins, begun, prepared, BeginsIn, IsUnknown};

use state::{
    CALC_CRC, CRC_MODE, CRC_REGISTER, Chip, IDLE, LATCHED, LEFT, LOAD_CONFIG, LOAD_KEY,
    LOAD_KEY_E2, READ_E2, RECEIVE, STAGE, TRANSCEIVE_SENDING, TRANSMIT, WRITE_E2,
};

// CalcCRC starts: it reads its mode and presets. The mode is stored only where it is another: it lies in a word that is judged at every host access, and a
// store delays the load of that word.
pub fn checksum_started(chip: &mut Chip)
    ensures turns { Turns checksum_started chip.old chip.new }
    ensures others { TurnsAny numbers_state_registers checksum_started chip.old chip.new }
    ensures rest { chip.new ≡ with_numbers chip.new.numbers (with_state chip.new.state chip.old) }
{
    let mode = chip.registers[0x22 - 0x10];
    let lsb = chip.registers[0x23 - 0x10];
    let msb = chip.registers[0x24 - 0x10];
    chip.numbers[CRC_REGISTER] = crc::preset(mode, lsb, msb);
    if chip.state[CRC_MODE] != mode {
        chip.state[CRC_MODE] = mode;
    }
}

// The stage in which a code's command begins: the code, with bit 6 of one that sends and bit 7 of one that receives. None of an unknown code.
fn first_stage(code: u8) -> Option<u8>
    ensures { MatchOption result (IsUnknown code) (BeginsIn code) }
{
    match code {
        IDLE | WRITE_E2 | READ_E2 | LOAD_CONFIG | LOAD_KEY_E2 | CALC_CRC | LOAD_KEY => Some(code),
        0x16 => Some(RECEIVE),
        0x1A => Some(TRANSMIT),
        0x1E => Some(TRANSCEIVE_SENDING),
        _ => None,
    }
}

// What a code's command does before it begins: LoadKeyE2 and LoadKey clear KeyErr, and CalcCRC reads its presets.
fn prepared(chip: &mut Chip, code: u8)
    ensures turns { Turns (prepared code) chip.old chip.new }
    ensures others { TurnsAny numbers_state_registers (prepared code) chip.old chip.new }
    ensures rest { chip.new ≡ with_numbers chip.new.numbers (with_state chip.new.state chip.old) }
{
    match code {
        LOAD_KEY_E2 | LOAD_KEY => chip.cleared(0x40),
        CALC_CRC => checksum_started(chip),
        _ => {}
    }
}

// The command becomes that of a stage in which one begins; nothing is latched, and no programming clocks are left.
fn switched(chip: &mut Chip, stage: u8)
    ensures turns { begins stage ≡ true → Turns (with_command (begun stage)) chip.old chip.new }
    ensures others { begins stage ≡ true → TurnsAny clocks_state (with_command (begun stage)) chip.old chip.new }
    ensures rest { chip.new ≡ with_clocks chip.new.clocks (with_state chip.new.state chip.old) }
{
    chip.clocks[LEFT] = 0;
    chip.state[STAGE] = stage;
    chip.state[LATCHED] = 0;
}

// A code is started; an unknown one ends at once.
fn begun(chip: &mut Chip, code: u8)
    ensures turns { Turns (command_started code) chip.old chip.new }
    ensures others { TurnsAny clocks_numbers_state_registers (command_started code) chip.old chip.new }
    ensures rest { chip.new ≡ with_clocks chip.new.clocks (with_numbers chip.new.numbers (with_state chip.new.state chip.old)) }
{
    match first_stage(code) {
        Some(stage) => {
            prepared(chip, code);
            switched(chip, stage);
        }
        None => chip.ended(),
    }
}

// Command is written; the code is in bits 5-0. AccessErr, CRCErr and ParityErr are cleared.
pub fn command_written(chip: &mut Chip, v: u8)
    ensures turns { Turns (command_written v) chip.old chip.new }
    ensures others { TurnsAny clocks_numbers_state_registers (command_written v) chip.old chip.new }
    ensures rest { chip.new ≡ with_clocks chip.new.clocks (with_numbers chip.new.numbers (with_state chip.new.state chip.old)) }
{
    if chip.programs() {
        return;
    }
    chip.cleared(0x2A);
    begun(chip, v % 64);
}

// A host write (manual 9.3): what an address's register does with a byte, and what the active command then does with bytes that wait.
//
// A write of FIFOData and of Command has the command do what it can; no other write lets it do more than it could before. CalcCRC, by which a host sums
// byte after byte, has ways of its own, in which no byte passes through the FIFO.

#![tactic(auto)]

ghost use Rattle.std.specs.Prelude.{◌≡◌, [], ◌+◌};
ghost use Rattle.machine.specs.Fifo.{offered, lost_at, alerted};
ghost use Rattle.machine.specs.Commands.{command_written, settled, lost_settling};
ghost use Rattle.machine.specs.Refusals.{host_write};
ghost use Rattle.state.specs.View.{with_numbers, with_state};
ghost use Rattle.state.specs.Turns.{Turns, TurnsLosing};
ghost use Rattle.state.specs.Answers.{PromisesAnswer, lost_answer};
ghost use Rattle.event_host_write.specs.Summing.{byte_summed, checksum_begun, only_begins, TurnsUnprogrammed};

use command_begin::{checksum_started, command_written};
use command_work::worked;
use register_mapping::mapped;
use register_write::register_written;
use state::{
    CALC_CRC, CRC_MODE, CRC_REGISTER, Chip, IDLE, LEFT, Lost, PAGE, Refusal, STAGE, TRANSMIT,
};
use state_fifo::{alerted, alerts_of, fifo_written, offered};
use state_formed::well_formed;

// Addresses are 00h to 3Fh.
const ADDRESSES: u8 = 64;

// A byte passes into CalcCRC's checksum, and TxIRq is set.
fn checksum_fed(chip: &mut Chip, v: u8)
    ensures turns { Turns (byte_summed v) chip.old chip.new }
    ensures rest { chip.new ≡ with_numbers chip.new.numbers (with_state chip.new.state chip.old) }
{
    chip.numbers[CRC_REGISTER] = crc::absorb(chip.state[CRC_MODE], chip.numbers[CRC_REGISTER], v);
    chip.requested(0x10);
}

// A byte is offered to the FIFO, the active command does what it can, and the alerts are judged. Answers how many bytes were lost.
fn fifo_worked(chip: &mut Chip, v: u8) -> u8
    ensures turns { TurnsLosing (λ m. alerted m (settled (offered v m))) (λ m. lost_at m + lost_settling (offered v m)) chip.old chip.new result }
    ensures rest { chip.new.eeprom ≡ chip.old.eeprom }
{
    let before = alerts_of(chip);
    let own = offered(chip, v);
    let others = worked(chip);
    alerted(chip, before);
    own + others
}

// A write to Command begins CalcCRC and nothing else happens: CalcCRC's code, no byte held, and no programming clocks left.
fn begins_checksum(v: u8, held: u8, left: u32) -> bool
    ensures { result ≡ only_begins v held left }
{
    (v % 64 == CALC_CRC) & ((held == 0) & (left == 0))
}

// CalcCRC begins. No alert moves: neither the held bytes nor FIFOLevel change.
fn checksum_begun(chip: &mut Chip)
    ensures turns { TurnsUnprogrammed checksum_begun chip.old chip.new }
    ensures rest { chip.new ≡ with_numbers chip.new.numbers (with_state chip.new.state chip.old) }
{
    chip.cleared(0x2A);
    checksum_started(chip);
    chip.state[STAGE] = CALC_CRC;
}

// Command is written, the command that is active then does what it can with bytes that wait already, and the alerts are judged. Answers how many bytes were
// lost.
fn command_worked(chip: &mut Chip, v: u8) -> u8
    ensures turns { TurnsLosing (λ m. alerted m (settled (command_written v m))) (λ m. lost_settling (command_written v m)) chip.old chip.new result }
    ensures rest { chip.new.eeprom ≡ chip.old.eeprom }
{
    let before = alerts_of(chip);
    command_written(chip, v);
    let lost = worked(chip);
    alerted(chip, before);
    lost
}

// A host write: refusals in their order, and then the register. A byte written to FIFOData passes through where CalcCRC is active, which in a well-formed chip
// holds none; it waits where Idle or a command that sends or receives is active; every other command may take it.
pub fn host_write(chip: &mut Chip, address: u8, v: u8) -> Result<Lost, Refusal>
    ensures turns { PromisesAnswer lost_answer chip.old (host_write address v) chip.new result [] }
    ensures rest { chip.new.eeprom ≡ chip.old.eeprom }
{
    if !well_formed(chip) {
        return Err(Refusal::Malformed);
    }
    if address >= ADDRESSES {
        return Err(Refusal::Address);
    }
    let register = mapped(chip.state[PAGE], address);
    if register == 0x02 {
        let stage = chip.state[STAGE];
        if stage == CALC_CRC {
            checksum_fed(chip, v);
            return Ok(Lost(0));
        }
        if (stage == IDLE) | (stage >= TRANSMIT) {
            return Ok(Lost(fifo_written(chip, v)));
        }
        return Ok(Lost(fifo_worked(chip, v)));
    }
    if register == 0x01 {
        if begins_checksum(v, chip.held(), chip.clocks[LEFT]) {
            checksum_begun(chip);
            return Ok(Lost(0));
        }
        return Ok(Lost(command_worked(chip, v)));
    }
    register_written(chip, register, v);
    Ok(Lost(0))
}

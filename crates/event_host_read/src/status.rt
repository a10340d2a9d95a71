// PrimaryStatus and SecondaryStatus (manual 2.3): the flags that they show.
ghost use Rattle.std.specs.Prelude.{◌≡◌, not, ◌*◌, ◌<◌, ◌≤◌, eqb};
ghost use Rattle.std.specs.Int.Bits.{bit_and};
ghost use Rattle.machine.specs.Registers.{modem_state, primary_status, secondary_status};
ghost use Rattle.state.specs.Turns.{Reads};
ghost use Rattle.event_host_read.specs.Shown.{Shows};

use state::{Chip, ENABLES, ERRORS, REQUESTS, RUNNING, RX_LAST_BITS, STAGE, TRANSMIT};
use state_fifo::{alerts_of, flag};

// IRq: a request is also enabled.
fn irq(enables: u8, requests: u8) -> bool
    ensures { result ≡ not (eqb (bit_and enables requests) 0) }
{
    enables & requests != 0
}

// Err: a flag of ErrorFlag is set. That it is a byte is known of a parameter by value.
fn err(errors: u8) -> bool
    ensures is { result ≡ not (eqb errors 0) }
    ensures byte { errors < 256 }
{
    errors != 0
}

// ModemState where PrimaryStatus has it, in bits 6-4: AwaitingRx while the chip receives, TxData while a frame waits to be taken. No stage below 5Ah sends or
// receives; that is asked first, since a chip that is polled has such a stage most of the time.
fn modem_state(chip: &Chip) -> u8
    ensures is { Reads (λ m. 16 * modem_state m) chip.now result }
    ensures small { result ≤ 0x60 }
{
    if chip.state[STAGE] < TRANSMIT {
        return 0x00;
    }
    if chip.receives() {
        return 0x60;
    }
    if chip.frame_waits() {
        return 0x20;
    }
    0x00
}

// PrimaryStatus (03h): ModemState in bits 6-4; IRq, Err, HiAlert and LoAlert in bits 3-0.
pub fn primary_status(chip: &Chip) -> u8
    ensures { Shows primary_status chip.now result }
{
    modem_state(chip)
        + 8 * flag(irq(chip.state[ENABLES], chip.state[REQUESTS]))
        + 4 * flag(err(chip.state[ERRORS]))
        + alerts_of(chip)
}

// SecondaryStatus (05h): TRunning, E2Ready and CRCReady in bits 7-5, RxLastBits in bits 2-0.
pub fn secondary_status(chip: &Chip) -> u8
    ensures { Shows secondary_status chip.now result }
{
    128 * flag(chip.state[RUNNING] == 1)
        + 64 * flag(!chip.programs())
        + 32
        + chip.state[RX_LAST_BITS] % 8
}

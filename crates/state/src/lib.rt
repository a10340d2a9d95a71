// The chip as a program keeps it (manual 13.1): eight arrays of numbers. A function is lent the chip whole, and changes it in place.
//
// Any memory is some chip, which refusal 7 judges. Names are the data sheet's. specs/View.antt says which machine the arrays are,
// specs/Formed.antt when a chip is well formed, specs/Turns.antt what a function that is lent a chip promises.

#![tactic(auto)]

ghost use Rattle.std.specs.Prelude.{◌≡◌, ◌+◌, ◌*◌, ◌^◌};
ghost use Rattle.state.specs.View.{raised, marked, unmarked, with_clocks, with_state};
ghost use Rattle.state.specs.Parts.{state_part, clocks_state};
ghost use Rattle.state.specs.Turns.{Turns, TurnsAny, Reads, Counts, Holds, ControlIs};
ghost use Rattle.machine.specs.Commands.{programs, ended};
ghost use Rattle.machine.specs.Frames.{receiving, frame_waits};
ghost use Rattle.machine.specs.Events.{lost};
ghost use Rattle.state.specs.Meets.{coded};

mod answers;

pub use answers::{Byte, Coded, Frame, Lost, Refusal};

// A chip. Elements that no name below stands for are kept for later fields; a start leaves them 0.
#[repr(C)]
#[derive(Clone, Copy)]
pub struct Chip {
    pub clocks: [u32; 2],
    pub numbers: [u16; 6],
    pub state: [u8; 24],
    pub registers: [u8; 32],
    pub slots: [u8; 64],
    pub latch: [u8; 16],
    pub key: [u8; 6],
    pub eeprom: [u8; 512],
}

// Elements of `clocks`: the timer's phase, and the programming clocks left.
pub const PHASE: usize = 0;

pub const LEFT: usize = 1;

// Elements of `numbers`: the CRC register, the address at which WriteE2's next byte goes, the sum of lost bytes, and the two power modes, of which
// bit 15 is set while the mode has hold, and bits 14-0 are the clocks that its leaving has to go. The two modes are judged together, as one word.
pub const CRC_REGISTER: usize = 0;

pub const NEXT: usize = 1;

pub const LOST_SUM: usize = 2;

pub const STAND_BY: usize = 4;

pub const POWER_DOWN: usize = 5;

// Elements of `state`. The first eight have bits that always read 0, which are judged together: Page, Control, whether a key is loaded, RxLastBits,
// InterruptEn, ChannelRedundancy as the latest CalcCRC read it, InterruptRq and ErrorFlag.
pub const PAGE: usize = 0;

pub const CONTROL: usize = 1;

pub const KEY_LOADED: usize = 2;

pub const RX_LAST_BITS: usize = 3;

pub const ENABLES: usize = 4;

pub const CRC_MODE: usize = 5;

pub const REQUESTS: usize = 6;

pub const ERRORS: usize = 7;

// TRunning, the prescaler kept while the timer runs, how many bytes WriteE2 has latched, and the edition, by its number.
pub const RUNNING: usize = 8;

pub const PRESCALER: usize = 9;

pub const LATCHED: usize = 10;

pub const EDITION: usize = 11;

// The active command and how far it is; the FIFO's read and write positions; TimerValue; BitFraming.
pub const STAGE: usize = 12;

pub const READ: usize = 13;

pub const WRITE: usize = 14;

pub const VALUE: usize = 15;

pub const BIT_FRAMING: usize = 16;

// Values of the stage: a command's code in bits 5-0, and how far it is in bits 7-6. WriteE2 has its address with bit 6; Transmit and Transceive send with bit 6,
// and Receive and Transceive receive with bit 7.
// Kept: numbers and no enum, since the C interface lends this element, where any byte may stand, and two tests go by the order of the values.
pub const IDLE: u8 = 0x00;

pub const WRITE_E2: u8 = 0x01;

pub const WRITE_E2_ADDRESSED: u8 = 0x41;

pub const READ_E2: u8 = 0x03;

pub const LOAD_CONFIG: u8 = 0x07;

pub const LOAD_KEY_E2: u8 = 0x0B;

pub const CALC_CRC: u8 = 0x12;

pub const LOAD_KEY: u8 = 0x19;

pub const TRANSMIT: u8 = 0x5A;

pub const RECEIVE: u8 = 0x96;

pub const TRANSCEIVE_SENDING: u8 = 0x5E;

pub const TRANSCEIVE_RECEIVING: u8 = 0x9E;

// From the read to the write position, by wrapping subtract. That the two are bytes is known of parameters by value, and not of elements that are loaded.
fn distance(read: u8, write: u8) -> u8
    ensures { Counts read write result }
{
    std::num::wrapping_sub_u8(write, read)
}

// The numbers of the two power modes as one word, StandBy's below PowerDown's. That they have 16 bits is known of parameters by value, and not of elements
// that are loaded.
// Kept: std's `from_le_bytes` takes bytes, and these are numbers of 16 bits; by `u32::from` and a shift it is no plainer.
pub fn modes_word(low: u16, high: u16) -> u32
    ensures { result ≡ high * 2 ^ 16 + low }
{
    high as u32 * 0x1_0000 + low as u32
}

// Control, from the bits of StandBy and PowerDown.
pub fn control_byte(standby: bool, powerdown: bool) -> u8
    ensures { ControlIs standby powerdown result }
{
    if standby {
        if powerdown {
            return 0x30;
        }
        return 0x20;
    }
    if powerdown {
        return 0x10;
    }
    0
}

// What a call answers that lost so many bytes: their number in bits 31-24.
// Kept: the edit `lost_in_bits_23_16` is of this function; `Lost` answers its number by it.
pub fn losing(count: u8) -> u32
    ensures { result ≡ coded (lost count) }
{
    0x100_0000 * (count as u32)
}

impl Chip {
    // How many bytes the FIFO holds.
    pub fn held(&self) -> u8
        ensures { Holds self.now.state result }
    {
        distance(self.state[READ], self.state[WRITE])
    }

    // A programming is there, running or standing still: WriteE2 is active, with its address or without, and clocks are left.
    pub fn programs(&self) -> bool
        ensures { Reads (λ m. programs m.command) self.now result }
    {
        if self.clocks[LEFT] == 0 {
            return false;
        }
        let stage = self.state[STAGE];
        (stage == WRITE_E2) | (stage == WRITE_E2_ADDRESSED)
    }

    // A frame waits to be taken: Transmit is active, or a Transceive that sends, and a byte is held.
    pub fn frame_waits(&self) -> bool
        ensures { Reads frame_waits self.now result }
    {
        let stage = self.state[STAGE];
        let sends = (stage == TRANSMIT) | (stage == TRANSCEIVE_SENDING);
        sends & (self.held() != 0)
    }

    // The chip receives: Receive, or Transceive after its frame was taken.
    pub fn receives(&self) -> bool
        ensures { Reads (λ m. receiving m.command) self.now result }
    {
        let stage = self.state[STAGE];
        (stage == RECEIVE) | (stage == TRANSCEIVE_RECEIVING)
    }

    // Requests of a mask's bits 5-0 are set in InterruptRq. The byte is stored only where one is new: a store delays the next load of a word that holds it.
    pub fn requested(&mut self, mask: u8)
        ensures turns { Turns (raised mask) self.old self.new }
        ensures others { TurnsAny state_part (raised mask) self.old self.new }
        ensures rest { self.new ≡ with_state self.new.state self.old }
    {
        let requests = self.state[REQUESTS];
        let next = requests | mask % 64;
        if next != requests {
            self.state[REQUESTS] = next;
        }
    }

    // Flags of a mask are set in ErrorFlag, but for bits that always read 0.
    pub fn failed(&mut self, mask: u8)
        ensures turns { Turns (marked mask) self.old self.new }
        ensures others { TurnsAny state_part (marked mask) self.old self.new }
        ensures rest { self.new ≡ with_state self.new.state self.old }
    {
        self.state[ERRORS] = self.state[ERRORS] | (mask & 0x7A);
    }

    // Flags of a mask are cleared in ErrorFlag. The byte is stored only where one is set.
    pub fn cleared(&mut self, mask: u8)
        ensures turns { Turns (unmarked mask) self.old self.new }
        ensures others { TurnsAny state_part (unmarked mask) self.old self.new }
        ensures rest { self.new ≡ with_state self.new.state self.old }
    {
        if self.state[ERRORS] & mask != 0 {
            self.state[ERRORS] = self.state[ERRORS] & !mask;
        }
    }

    // The command ends: Idle, which programs nothing, and IdleIRq.
    pub fn ended(&mut self)
        ensures turns { Turns ended self.old self.new }
        ensures others { TurnsAny clocks_state ended self.old self.new }
        ensures rest { self.new ≡ with_clocks self.new.clocks (with_state self.new.state self.old) }
    {
        self.clocks[LEFT] = 0;
        self.state[STAGE] = IDLE;
        self.requested(0x04);
    }
}

// What a call of the chip answers, and why one is refused (manual 10), with the number that stands for each at the C interface (manual 9.8).
ghost use Rattle.std.specs.Prelude.{◌≡◌};
ghost use Rattle.machine.specs.Events.{Answer};
ghost use Rattle.state.specs.Meets.{coded};
ghost use Rattle.state.specs.Answers.{IsNumberOf, answered, byte_answer, lost_answer, frame_answer, done_answer};

use crate::losing;

// Why a call is refused.
#[derive(Clone, Copy, Debug, PartialEq, Eq)]
pub enum Refusal {
    // 1: the address is above 3Fh.
    Address,
    // 2: an image is not 512 bytes.
    ImageLength,
    // 4: no frame waits to be taken, the chip does not receive, or a power mode has hold.
    NotNow,
    // 5: a frame delivered is not formed.
    FrameForm,
    // 6: the buffer has no room for the longest frame.
    BufferLength,
    // 7: the chip is not well formed.
    Malformed,
    // 22: an image is of no edition.
    ImageEdition,
}

impl From<Refusal> for u32 {
    ghost from_gives = { IsNumberOf };

    fn from(refusal: Refusal) -> u32 {
        match refusal {
            Refusal::Address => 1,
            Refusal::ImageLength => 2,
            Refusal::NotNow => 4,
            Refusal::FrameForm => 5,
            Refusal::BufferLength => 6,
            Refusal::Malformed => 7,
            Refusal::ImageEdition => 22,
        }
    }
}

// The byte that a host read answers.
#[derive(Clone, Copy, Debug, PartialEq, Eq)]
pub struct Byte(pub u8);

// How many bytes a host write or a delivery lost.
#[derive(Clone, Copy, Debug, PartialEq, Eq)]
pub struct Lost(pub u8);

// The frame that a take put to the front of a buffer: how many bytes it has, and how many bits of the last one count, 0 for all.
#[derive(Clone, Copy, Debug, PartialEq, Eq)]
pub struct Frame {
    pub length: u8,
    pub last_bits: u8,
}

// What a call answers, as a number.
pub trait Coded {
    // The answer of the machine's definition that it is.
    ghost answer: { Self → Answer };

    // The number that stands for it.
    fn code(self) -> u32
        ensures { result ≡ coded (answer self) };
}

// Nothing but that the call was done.
impl Coded for () {
    ghost answer = { done_answer };

    fn code(self) -> u32 {
        0 // a call that is done, and answers nothing more
    }
}

impl Coded for Byte {
    ghost answer = { byte_answer };

    fn code(self) -> u32 {
        0x100 * self.0 as u32
    }
}

impl Coded for Lost {
    ghost answer = { lost_answer };

    fn code(self) -> u32 {
        losing(self.0)
    }
}

impl Coded for Frame {
    ghost answer = { frame_answer };

    fn code(self) -> u32 {
        0x100 * self.length as u32 + 0x1_0000 * self.last_bits as u32
    }
}

// An answer, or a refusal's number.
impl<A: Coded> Coded for Result<A, Refusal> {
    ghost answer = { answered A.answer };

    fn code(self) -> u32 {
        match self {
            Ok(answer) => answer.code(),
            Err(refusal) => u32::from(refusal),
        }
    }
}

// The two editions of the chip (manual 6.4): which one an image is of, and the bits that each fixes.
//
// specs/Edition.antt has what tells them apart, specs/FixedBits.antt cites the data sheet for every entry of the tables.

#![tactic(auto)]

ghost use Rattle.std.specs.Prelude.{◌≡◌, get_or, is_ok, is_some, IfErr, IfOk, IfSome};
ghost use Rattle.edition.specs.FixedBits.{fixed};
ghost use Rattle.edition.specs.Edition.{fixed_bits, product_type, is_of, of_either, edition_of, is_number, numbered, number_of};

#[derive(Clone, Copy, Debug, PartialEq, Eq)]
pub enum Edition {
    Mfrc531,
    Rc530,
}

// The numbers that stand for them, in a chip and for C.
pub const MFRC531: u8 = 0;

pub const RC530: u8 = 1;

// A number that stands for no edition.
#[derive(Clone, Copy, Debug, PartialEq, Eq)]
pub struct UnknownEdition(pub u8);

impl TryFrom<u8> for Edition {
    type Error = UnknownEdition;

    ghost try_from_gives = { λ number r. (is_ok r ≡ is_number number)
        × IfOk r (λ edition. edition ≡ numbered number)
        × IfErr r (λ unknown. unknown.0 ≡ number) };

    fn try_from(number: u8) -> Result<Self, UnknownEdition> {
        match number {
            MFRC531 => Ok(Edition::Mfrc531),
            RC530 => Ok(Edition::Rc530),
            _ => Err(UnknownEdition(number)),
        }
    }
}

impl From<Edition> for u8 {
    ghost from_gives = { λ edition number. number ≡ number_of edition };

    fn from(edition: Edition) -> u8 {
        match edition {
            Edition::Mfrc531 => MFRC531,
            Edition::Rc530 => RC530,
        }
    }
}

// The fixed bits of one register: a mask of them, and the value that they have.
#[derive(Clone, Copy)]
pub struct FixedBits(pub u8, pub u8);

// The tables by position: the entry at 0 is for register 10h.
const MFRC531_BITS: [FixedBits; 32] = [
    FixedBits(0x00, 0x00), // 10h Page
    FixedBits(0x80, 0x00), // 11h TxControl
    FixedBits(0xC0, 0x00), // 12h CwConductance
    FixedBits(0xC0, 0x00), // 13h ModConductance
    FixedBits(0xC0, 0x00), // 14h CoderControl
    FixedBits(0x00, 0x00), // 15h ModWidth
    FixedBits(0x00, 0x00), // 16h PreSet16
    FixedBits(0x00, 0x00), // 17h TypeBFraming
    FixedBits(0x00, 0x00), // 18h Page
    FixedBits(0x00, 0x00), // 19h RxControl1
    FixedBits(0x86, 0x00), // 1Ah DecoderControl
    FixedBits(0x00, 0x00), // 1Bh BitPhase
    FixedBits(0x00, 0x00), // 1Ch RxThreshold
    FixedBits(0x00, 0x00), // 1Dh BPSKDemControl
    FixedBits(0x3C, 0x00), // 1Eh RxControl2
    FixedBits(0x20, 0x00), // 1Fh ClockQControl
    FixedBits(0x00, 0x00), // 20h Page
    FixedBits(0x00, 0x00), // 21h RxWait
    FixedBits(0xC0, 0x00), // 22h ChannelRedundancy
    FixedBits(0x00, 0x00), // 23h CRCPresetLSB
    FixedBits(0x00, 0x00), // 24h CRCPresetMSB
    FixedBits(0xFF, 0x00), // 25h PreSet25
    FixedBits(0xF8, 0x00), // 26h MFOUTSelect
    FixedBits(0x00, 0x00), // 27h PreSet27
    FixedBits(0x00, 0x00), // 28h Page
    FixedBits(0xC0, 0x00), // 29h FIFOLevel
    FixedBits(0xC0, 0x00), // 2Ah TimerClock
    FixedBits(0xF0, 0x00), // 2Bh TimerControl
    FixedBits(0x00, 0x00), // 2Ch TimerReload
    FixedBits(0xFC, 0x00), // 2Dh IRQPinConfig
    FixedBits(0x00, 0x00), // 2Eh PreSet2E
    FixedBits(0x00, 0x00), // 2Fh PreSet2F
];

const RC530_BITS: [FixedBits; 32] = [
    FixedBits(0x00, 0x00), // 10h Page
    FixedBits(0x90, 0x10), // 11h TxControl
    FixedBits(0xC0, 0x00), // 12h CwConductance
    FixedBits(0xFF, 0x3F), // 13h PreSet13
    FixedBits(0xC7, 0x01), // 14h CoderControl
    FixedBits(0x00, 0x00), // 15h ModWidth
    FixedBits(0xFF, 0x00), // 16h PreSet16
    FixedBits(0xFF, 0x00), // 17h PreSet17
    FixedBits(0x00, 0x00), // 18h Page
    FixedBits(0x18, 0x10), // 19h RxControl1
    FixedBits(0x9E, 0x08), // 1Ah DecoderControl
    FixedBits(0x00, 0x00), // 1Bh BitPhase
    FixedBits(0x00, 0x00), // 1Ch RxThreshold
    FixedBits(0xE0, 0x00), // 1Dh BPSKDemControl
    FixedBits(0x3C, 0x00), // 1Eh RxControl2
    FixedBits(0x20, 0x00), // 1Fh ClockQControl
    FixedBits(0x00, 0x00), // 20h Page
    FixedBits(0x00, 0x00), // 21h RxWait
    FixedBits(0xC0, 0x00), // 22h ChannelRedundancy
    FixedBits(0x00, 0x00), // 23h CRCPresetLSB
    FixedBits(0x00, 0x00), // 24h CRCPresetMSB
    FixedBits(0xFF, 0x00), // 25h PreSet25
    FixedBits(0xF8, 0x00), // 26h MFOUTSelect
    FixedBits(0x00, 0x00), // 27h PreSet27
    FixedBits(0x00, 0x00), // 28h Page
    FixedBits(0xC0, 0x00), // 29h FIFOLevel
    FixedBits(0xC0, 0x00), // 2Ah TimerClock
    FixedBits(0xF0, 0x00), // 2Bh TimerControl
    FixedBits(0x00, 0x00), // 2Ch TimerReload
    FixedBits(0xFC, 0x00), // 2Dh IRQPinConfig
    FixedBits(0x00, 0x00), // 2Eh PreSet2E
    FixedBits(0x00, 0x00), // 2Fh PreSet2F
];

// The entry of an edition's table for a position; beyond its end no bit is fixed.
pub fn fixed_bits(edition: Edition, position: usize) -> FixedBits
    ensures { result ≡ get_or (fixed_bits edition) position (fixed 0x00 0x00) }
{
    if position >= 32 {
        return FixedBits(0x00, 0x00);
    }
    match edition {
        Edition::Mfrc531 => MFRC531_BITS[position],
        Edition::Rc530 => RC530_BITS[position],
    }
}

// An edition's product type.
fn product_type(edition: Edition) -> [u8; 4]
    ensures { result ≡ product_type edition }
{
    match edition {
        Edition::Mfrc531 => [0x30, 0xCC, 0xFF, 0x0F],
        Edition::Rc530 => [0x30, 0x88, 0xFE, 0x03],
    }
}

// An image is of an edition.
pub fn is_of(edition: Edition, image: &[u8]) -> bool
    ensures { result ≡ is_of edition image.now }
{
    image.starts_with(&product_type(edition))
}

impl Edition {
    // The edition that an image is of, or None where it is of neither.
    pub fn of(image: &[u8]) -> Option<Edition>
        ensures either { is_some result ≡ of_either image.now }
        ensures edition { IfSome result (λ edition. edition ≡ edition_of image.now) }
    {
        if is_of(Edition::Rc530, image) {
            Some(Edition::Rc530)
        } else if is_of(Edition::Mfrc531, image) {
            Some(Edition::Mfrc531)
        } else {
            None
        }
    }
}

// What programs that make a chip begin with: a chip's memory before its first start, and an image to start it from.

#![tactic(auto)]

ghost use Rattle.std.specs.Prelude.{◌≡◌};
ghost use Rattle.program_blank_chip.specs.Blank.{blank_chip, blank_image};

use state::Chip;

// Every number is 0. A start does not look at the chip, so any would do.
pub fn blank_chip() -> Chip
    ensures { result ≡ blank_chip }
{
    Chip {
        clocks: [0; 2],
        numbers: [0; 6],
        state: [0; 24],
        registers: [0; 32],
        slots: [0; 64],
        latch: [0; 16],
        key: [0; 6],
        eeprom: [0; 512],
    }
}

// The MFRC531's product type, and zeros behind it.
pub fn blank_image() -> [u8; 512]
    ensures { result ≡ blank_image }
{
    let mut image = [0u8; 512];
    image[0] = 0x30;
    image[1] = 0xCC;
    image[2] = 0xFF;
    image[3] = 0x0F;
    image
}

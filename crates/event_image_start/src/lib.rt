// The start on a chip (manual 9.1): from an EEPROM image, whatever the chip was, as a chip of the image's edition.

#![tactic(auto)]

ghost use Rattle.std.specs.Prelude.{◌≡◌, [], length};
ghost use Rattle.machine.specs.Refusals.{start};
ghost use Rattle.state.specs.Answers.{PromisesAnswer, done_answer};

use edition::Edition;
use register_load::load_registers;
use state::{Chip, EDITION, ERRORS, PAGE, Refusal};

// The bytes of an image, which is the whole EEPROM.
const IMAGE_LENGTH: usize = 512;

// An image becomes the EEPROM.
// Kept: std's `copy_from_slice` makes a start call `memmove`, and where a firmware brings a plain one, take thirteen times the instructions.
fn store_image(eeprom: &mut [u8; 512], image: &[u8])
    requires { length image.now ≡ 512 }
    ensures { length eeprom.old ≡ 512 → eeprom.new ≡ image.now }
{
    for i in 0..512 {
        eeprom[i] = image[i];
    }
}

// A start from an EEPROM image. Elements that no field uses, slots and latch are cleared too, so that the same image gives the same chip.
pub fn start(chip: &mut Chip, image: &[u8]) -> Result<(), Refusal>
    ensures { PromisesAnswer done_answer chip.old (start image.now) chip.new result [] }
{
    if image.len() != IMAGE_LENGTH {
        return Err(Refusal::ImageLength);
    }
    let Some(edition) = Edition::of(image) else {
        return Err(Refusal::ImageEdition);
    };
    chip.clocks = [0; 2];
    chip.numbers = [0; 6];
    chip.state = [0; 24];
    chip.registers = [0; 32];
    chip.slots = [0; 64];
    chip.latch = [0; 16];
    chip.key = [0; 6];
    chip.state[PAGE] = 0x80;
    chip.state[ERRORS] = 0x40;
    chip.state[EDITION] = u8::from(edition);
    store_image(&mut chip.eeprom, image);
    load_registers(chip, 0x10);
    Ok(())
}

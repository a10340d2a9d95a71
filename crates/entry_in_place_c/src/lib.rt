// The C interface (include/mfrc531.h; manual 13.2): each function of `entry_in_place` by its name in C, with the clauses that it has there.

#![tactic(auto)]

ghost use Rattle.std.specs.Prelude.{◌≡◌, [], length};
ghost use Rattle.pack.specs.Outcome.{numbered};
ghost use Rattle.pack.specs.Write.{writing, filled};
ghost use Rattle.pack.specs.Read.{reading};
ghost use Rattle.pack.specs.Find.{finding, halved, offset_of};
ghost use Rattle.profile_choice.specs.Choice.{chosen};
ghost use Rattle.machine.specs.Refusals.{start, host_read, host_write, advance, take_frame, deliver};
ghost use Rattle.state.specs.Meets.{Meets};
ghost use Rattle.state.specs.LostSum.{lost_sum_of};
ghost use Rattle.profile_number.specs.Numbers.{profile_number};
ghost use Rattle.entry_in_place.specs.Numbers.{judged_for, choice_number};

use state::Chip;

// A start from an EEPROM image, whatever the chip was.
#[unsafe(no_mangle)]
pub extern "C" fn mfrc531_start(chip: &mut Chip, image: &[u8]) -> u32
    ensures { Meets chip.old (start image.now) chip.new result [] }
{
    entry_in_place::mfrc531_start(chip, image)
}

// A host read of an address.
#[unsafe(no_mangle)]
pub extern "C" fn mfrc531_read(chip: &mut Chip, address: u8) -> u32
    ensures { Meets chip.old (host_read address) chip.new result [] }
{
    entry_in_place::mfrc531_read(chip, address)
}

// A host write of a byte to an address.
#[unsafe(no_mangle)]
pub extern "C" fn mfrc531_write(chip: &mut Chip, address: u8, v: u8) -> u32
    ensures { Meets chip.old (host_write address v) chip.new result [] }
{
    entry_in_place::mfrc531_write(chip, address, v)
}

// An advance by clocks.
#[unsafe(no_mangle)]
pub extern "C" fn mfrc531_advance(chip: &mut Chip, clocks: u32) -> u32
    ensures { Meets chip.old (advance clocks) chip.new result [] }
{
    entry_in_place::mfrc531_advance(chip, clocks)
}

// A take of the frame that the chip sends, into a buffer.
#[unsafe(no_mangle)]
pub extern "C" fn mfrc531_take(chip: &mut Chip, buffer: &mut [u8]) -> u32
    ensures { let call = take_frame buffer.old in
        Meets chip.old call chip.new result buffer.new }
{
    entry_in_place::mfrc531_take(chip, buffer)
}

// A delivery of a frame that the chip receives.
#[unsafe(no_mangle)]
pub extern "C" fn mfrc531_deliver(
    chip: &mut Chip,
    bytes: &[u8],
    parities: &[u8],
    last_bits: u8,
) -> u32
    ensures { let call = deliver bytes.now parities.now last_bits in
        Meets chip.old call chip.new result [] }
{
    entry_in_place::mfrc531_deliver(chip, bytes, parities, last_bits)
}

// The sum of lost bytes, of a chip that is lent to read.
#[unsafe(no_mangle)]
pub extern "C" fn mfrc531_lost_sum(chip: &Chip) -> u32
    ensures { result ≡ lost_sum_of chip.now }
{
    entry_in_place::mfrc531_lost_sum(chip)
}

// The check of a start-up profile, for the edition that a number stands for.
#[unsafe(no_mangle)]
pub extern "C" fn mfrc531_check_profile(edition: u8, profile: &[u8]) -> u32
    ensures { result ≡ profile_number (judged_for edition profile.now) }
{
    entry_in_place::mfrc531_check_profile(edition, profile)
}

// The choice for a safe start, from two images.
#[unsafe(no_mangle)]
pub extern "C" fn mfrc531_choose(user: &[u8], rescue: &[u8]) -> u32
    ensures { result ≡ choice_number (chosen user.now rescue.now) }
{
    entry_in_place::mfrc531_choose(user, rescue)
}

// A pack written from names and bodies into a buffer.
#[unsafe(no_mangle)]
pub extern "C" fn mfrc531_pack_write(names: &[u8], bodies: &[u8], buffer: &mut [u8]) -> u32
    ensures { let outcome = writing names.now bodies.now (length buffer.old) in
        (result ≡ numbered length outcome) × (buffer.new ≡ filled outcome buffer.old) }
{
    entry_in_place::mfrc531_pack_write(names, bodies, buffer)
}

// The number of profiles of a pack.
#[unsafe(no_mangle)]
pub extern "C" fn mfrc531_pack_read(pack: &[u8]) -> u32
    ensures { result ≡ numbered length (reading pack.now) }
{
    entry_in_place::mfrc531_pack_read(pack)
}

// The offset of the body that has a name in a pack.
#[unsafe(no_mangle)]
pub extern "C" fn mfrc531_pack_find(pack: &[u8], name: &[u8]) -> u32
    ensures { result ≡ numbered offset_of (finding pack.now name.now) }
{
    entry_in_place::mfrc531_pack_find(pack, name)
}

// The same in bytes that have been read as a pack, which are not judged again.
#[unsafe(no_mangle)]
pub extern "C" fn mfrc531_pack_find_checked(pack: &[u8], name: &[u8]) -> u32
    ensures { result ≡ numbered offset_of (halved pack.now name.now) }
{
    entry_in_place::mfrc531_pack_find_checked(pack, name)
}

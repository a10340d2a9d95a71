// The functions of the C interface (manual 13.2): the six events on a chip that the caller lends, the sum of lost bytes, the profile check, the choice for
// a safe start, and packs of profiles. `entry_in_place_c` gives each to C by its name; here they are a library, which `journal_runs` stands on.
//
// Kept: every function here answers a number, which the C interface needs.
//
// An event is lent the chip, and its answer or its refusal is given as the number that stands for it. `whole` says for the proof what the chip is by its types.

#![tactic(auto)]

ghost use Rattle.std.specs.Prelude.{◌≡◌, [], length};
ghost use Rattle.pack.specs.Outcome.{numbered};
ghost use Rattle.pack.specs.Write.{writing, filled};
ghost use Rattle.pack.specs.Read.{reading};
ghost use Rattle.pack.specs.Find.{finding, halved, offset_of};
ghost use Rattle.profile_choice.specs.Choice.{chosen};
ghost use Rattle.machine.specs.Refusals.{start, host_read, host_write, advance, take_frame, deliver};
ghost use Rattle.state.specs.Meets.{Meets};
ghost use Rattle.state.specs.LostSum.{lost_sum_of};
ghost use Rattle.profile_number.specs.Numbers.{profile_number};
ghost use Rattle.entry_in_place.specs.Numbers.{judged_for, choice_number};

use edition::Edition;
use profile::check;
use profile_choice::Choice;
use profile_number::verdict_number;
use state::{Chip, Coded};

// A start from an EEPROM image, whatever the chip was.
pub fn mfrc531_start(chip: &mut Chip, image: &[u8]) -> u32
    ensures { Meets chip.old (start image.now) chip.new result [] }
{
    entry_walk::whole(chip);
    event_image_start::start(chip, image).code()
}

// A host read of an address.
pub fn mfrc531_read(chip: &mut Chip, address: u8) -> u32
    ensures { Meets chip.old (host_read address) chip.new result [] }
{
    entry_walk::whole(chip);
    event_host_read::host_read(chip, address).code()
}

// A host write of a byte to an address.
pub fn mfrc531_write(chip: &mut Chip, address: u8, v: u8) -> u32
    ensures { Meets chip.old (host_write address v) chip.new result [] }
{
    entry_walk::whole(chip);
    event_host_write::host_write(chip, address, v).code()
}

// An advance by clocks.
pub fn mfrc531_advance(chip: &mut Chip, clocks: u32) -> u32
    ensures { Meets chip.old (advance clocks) chip.new result [] }
{
    entry_walk::whole(chip);
    event_clock_advance::advance(chip, clocks).code()
}

// A take of the frame that the chip sends, into a buffer.
pub fn mfrc531_take(chip: &mut Chip, buffer: &mut [u8]) -> u32
    ensures { let call = take_frame buffer.old in
        Meets chip.old call chip.new result buffer.new }
{
    entry_walk::whole(chip);
    event_frame_take::take(chip, buffer).code()
}

// A delivery of a frame that the chip receives.
pub fn mfrc531_deliver(chip: &mut Chip, bytes: &[u8], parities: &[u8], last_bits: u8) -> u32
    ensures { let call = deliver bytes.now parities.now last_bits in
        Meets chip.old call chip.new result [] }
{
    entry_walk::whole(chip);
    event_frame_deliver::deliver(chip, bytes, parities, last_bits).code()
}

// The sum of lost bytes, of a chip that is lent to read.
pub fn mfrc531_lost_sum(chip: &Chip) -> u32
    ensures { result ≡ lost_sum_of chip.now }
{
    entry_walk::whole(chip);
    query_lost_sum::sum_number(query_lost_sum::lost_sum(chip))
}

// The check of a start-up profile, for the edition that a number stands for.
pub fn mfrc531_check_profile(edition: u8, profile: &[u8]) -> u32
    ensures { result ≡ profile_number (judged_for edition profile.now) }
{
    match Edition::try_from(edition) {
        Ok(edition) => verdict_number(check(edition, profile)),
        Err(_) if profile.len() == 32 => u32::from(state::Refusal::Malformed),
        Err(_) => verdict_number(Err(profile::Refusal::Length)),
    }
}

// The choice for a safe start, from two images.
pub fn mfrc531_choose(user: &[u8], rescue: &[u8]) -> u32
    ensures { result ≡ choice_number (chosen user.now rescue.now) }
{
    match profile_choice::choose(user, rescue) {
        Ok(Choice::User) => 0x100,
        Ok(Choice::Rescue) => 0x200,
        Err(refusal) => u32::from(refusal),
    }
}

// A pack written from names and bodies into a buffer.
pub fn mfrc531_pack_write(names: &[u8], bodies: &[u8], buffer: &mut [u8]) -> u32
    ensures { let outcome = writing names.now bodies.now (length buffer.old) in
        (result ≡ numbered length outcome) × (buffer.new ≡ filled outcome buffer.old) }
{
    pack_write::write_number(names, bodies, buffer)
}

// The number of profiles of a pack.
pub fn mfrc531_pack_read(pack: &[u8]) -> u32
    ensures { result ≡ numbered length (reading pack.now) }
{
    pack_read::read_number(pack)
}

// The offset of the body that has a name in a pack.
pub fn mfrc531_pack_find(pack: &[u8], name: &[u8]) -> u32
    ensures { result ≡ numbered offset_of (finding pack.now name.now) }
{
    pack_find::find_number(pack, name)
}

// The same in bytes that have been read as a pack, which are not judged again.
pub fn mfrc531_pack_find_checked(pack: &[u8], name: &[u8]) -> u32
    ensures { result ≡ numbered offset_of (halved pack.now name.now) }
{
    pack_find::find_checked_number(pack, name)
}

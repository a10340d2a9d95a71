// The choice for a safe start (manual 11.5): the user's start-up profile where it passes the check, else the rescue image's. Each image is judged by its own
// edition.
//
// `choose` answers whose profile it is or why there is none, and keeps neither image lent; `chosen` hands back the profile itself, the 32 bytes of the image that
// it stands in, which keeps both lent while it is held.

#![tactic(auto)]

ghost use Rattle.std.specs.Prelude.{◌≡◌, true, false, length, MatchOption, Err};
ghost use Rattle.edition.specs.Edition.{fixed_bits};
ghost use Rattle.profile.specs.Answer.{is_pass};
ghost use Rattle.profile.specs.Check.{judged};
ghost use Rattle.profile_choice.specs.Choice.{start_up_profile, passing, refused, chosen_of, has_profile, part_of, chosen};

use edition::Edition;

// Whose profile it is.
#[derive(Clone, Copy, Debug, PartialEq, Eq)]
pub enum Choice {
    User,
    Rescue,
}

// Why there is none.
#[derive(Clone, Copy, Debug, PartialEq, Eq)]
pub enum Refusal {
    // 2: an image is not 512 bytes.
    ImageLength,
    // 8: the user's profile and the rescue profile both fail.
    BothFail,
}

impl From<Refusal> for u32 {
    ghost from_gives = { λ refusal number. chosen_of (Err refusal) ≡ refused number };

    fn from(refusal: Refusal) -> u32 {
        match refusal {
            Refusal::ImageLength => 2,
            Refusal::BothFail => 8,
        }
    }
}

// The image's bytes 010h-02Fh pass the check of an edition.
fn passes_as(edition: Edition, image: &[u8]) -> bool
    requires { length image.now ≡ 512 }
    ensures { result ≡ is_pass (judged (fixed_bits edition) (start_up_profile image.now)) }
{
    profile::check(edition, &image[0x10..0x30]).is_ok()
}

// They pass that of the edition that the image is of; those of an image of neither do not.
fn passes(image: &[u8]) -> bool
    requires { length image.now ≡ 512 }
    ensures { result ≡ passing image.now }
{
    match Edition::of(image) {
        Some(edition) => passes_as(edition, image),
        None => false,
    }
}

// Whose start-up profile is chosen, or the refusal.
pub fn choose(user: &[u8], rescue: &[u8]) -> Result<Choice, Refusal>
    ensures { chosen_of result ≡ chosen user.now rescue.now }
{
    if user.len() != 512 || rescue.len() != 512 {
        return Err(Refusal::ImageLength);
    }
    if passes(user) {
        return Ok(Choice::User);
    }
    if passes(rescue) {
        return Ok(Choice::Rescue);
    }
    Err(Refusal::BothFail)
}

// The chosen profile, as a part of the image that it stands in.
pub fn chosen<'a>(user: &'a [u8], rescue: &'a [u8]) -> Option<&'a [u8]>
    ensures { let choice = chosen user.now rescue.now in
        MatchOption result (has_profile choice ≡ false) (λ profile. (has_profile choice ≡ true) × (profile.now ≡ part_of choice user.now rescue.now)) }
{
    match choose(user, rescue) {
        Ok(Choice::User) => Some(&user[0x10..0x30]),
        Ok(Choice::Rescue) => Some(&rescue[0x10..0x30]),
        Err(_) => None,
    }
}

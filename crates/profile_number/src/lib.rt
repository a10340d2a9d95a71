// The number of a profile check's verdict (manual 9.8), for hosts that have no types for it.

#![tactic(auto)]

ghost use Rattle.std.specs.Prelude.{◌≡◌};
ghost use Rattle.profile.specs.Answer.{refusal_answer, answer_of};
ghost use Rattle.profile_number.specs.Numbers.{profile_number};

use profile::Refusal;

// The number of a refusal by the profile check.
// Kept: no plainer as `impl From<Refusal> for u32`, which names no type of this crate and is refused here; a struct around the number would be opened again below.
fn refusal_number(refusal: Refusal) -> u32
    ensures { result ≡ profile_number (refusal_answer refusal) }
{
    match refusal {
        Refusal::Length => 9,
        Refusal::FixedBit { register, bit } => 10 + 0x100 * register as u32 + 0x1_0000 * bit as u32,
        Refusal::PreScaler { register } => 11 + 0x100 * register as u32,
        Refusal::Reload { register } => 12 + 0x100 * register as u32,
        Refusal::WaterLevel { register } => 13 + 0x100 * register as u32,
    }
}

// The number of a verdict: 0 where the profile passes.
pub fn verdict_number(verdict: Result<(), Refusal>) -> u32
    ensures { result ≡ profile_number (answer_of verdict) }
{
    match verdict {
        Ok(()) => 0,
        Err(refusal) => refusal_number(refusal),
    }
}

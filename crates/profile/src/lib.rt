// The profile check: thirty-two bytes for registers 10h to 2Fh of an edition pass, or are refused with a number of manual 11.

#![tactic(auto)]

ghost use Rattle.std.specs.Prelude.{◌≡◌, ◌<◌, ◌≤◌, length};
ghost use Rattle.profile.specs.Answer.{answer_of};
ghost use Rattle.edition.specs.Edition.{fixed_bits};
ghost use Rattle.profile.specs.Check.{differs_at, above_limit, reload_refused, fixed_bits_judged, value_judged, judged};

use edition::{Edition, FixedBits, fixed_bits};

// Why a profile is refused, with the address of the register where one is named.
#[derive(Clone, Copy, Debug, PartialEq, Eq)]
pub enum Refusal {
    // 9: the profile is not 32 bytes.
    Length,
    // 10: a fixed bit differs.
    FixedBit { register: u8, bit: u8 },
    // 11: TPreScaler is above 21.
    PreScaler { register: u8 },
    // 12: TimerReload is 0, and TStartTxBegin or TStartTxEnd is set.
    Reload { register: u8 },
    // 13: WaterLevel is above 31.
    WaterLevel { register: u8 },
}

// Bit `bit` is fixed, and the byte has it at the other value.
fn differs(fixed: FixedBits, byte: u8, bit: u8) -> bool
    requires { bit < 8 }
    ensures { result ≡ differs_at fixed byte bit }
{
    let mask = fixed.0;
    let value = fixed.1;
    if (mask >> bit) % 2 == 1 {
        (byte >> bit) % 2 != (value >> bit) % 2
    } else {
        false
    }
}

// At the value's own register: it is above its limit.
fn above_limit(own: u8, register: u8, value: u8, limit: u8) -> bool
    ensures { result ≡ above_limit own register value limit }
{
    if register == own {
        limit < value
    } else {
        false
    }
}

// At TimerReload's address: the reload value is 0 while TStartTxBegin or TStartTxEnd is set.
fn reload_refused(register: u8, control: u8, reload: u8) -> bool
    ensures { result ≡ reload_refused register control reload }
{
    if register != 0x2C {
        return false;
    }
    if reload != 0 {
        return false;
    }
    if control % 2 == 1 {
        return true;
    }
    control / 2 % 2 == 1
}

// The verdict on the values at a register whose fixed bits hold.
fn value_verdict(profile: &[u8], register: u8) -> Result<(), Refusal>
    requires { length profile.now ≡ 32 }
    ensures { answer_of result ≡ value_judged profile.now register }
{
    if above_limit(0x29, register, profile[0x29 - 0x10] % 64, 31) {
        return Err(Refusal::WaterLevel { register });
    }
    if above_limit(0x2A, register, profile[0x2A - 0x10] % 32, 21) {
        return Err(Refusal::PreScaler { register });
    }
    if reload_refused(register, profile[0x2B - 0x10], profile[0x2C - 0x10]) {
        return Err(Refusal::Reload { register });
    }
    Ok(())
}

// The verdict on any bytes, for a chip of an edition.
#[tactic(auto, unfolding(crate::specs::Check::judged))]
pub fn check(edition: Edition, profile: &[u8]) -> Result<(), Refusal>
    ensures { answer_of result ≡ judged (fixed_bits edition) profile.now }
{
    if profile.len() != 32 {
        return Err(Refusal::Length);
    }
    let mut verdict = Ok(());
    'registers: for register in 0x10..0x30 {
        let position = (register - 0x10) as usize;
        let fixed = fixed_bits(edition, position);
        let byte = profile[position];
        for bit in 0..8 {
            if differs(fixed, byte, bit) {
                verdict = Err(Refusal::FixedBit { register, bit });
                break 'registers;
            }
        }
        verdict = value_verdict(profile, register);
        if verdict.is_err() {
            break 'registers;
        }
    }
    verdict
}

// The checksum over a slice, by a C name: for tests/differential alone, which compares it with plain Rust and times it. The library that
// firmware links does not have it.

#![tactic(auto)]

ghost use Rattle.std.specs.Prelude.{◌≡◌};
ghost use Rattle.crc.specs.Checksum.{absorbed_all};

// The register after all bytes of a slice, in order.
#[unsafe(no_mangle)]
pub extern "C" fn crc_absorb_all(redundancy: u8, register: u16, bytes: &[u8]) -> u16
    ensures { result ≡ absorbed_all redundancy register bytes.now }
{
    crc::absorb_all(redundancy, register, bytes)
}

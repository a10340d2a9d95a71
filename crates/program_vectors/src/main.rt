// Runs the units on outside vectors and prints what they give; the file `stdout` holds the published values.
//
// The checksums are those of the catalogue of parametrised CRC algorithms over the bytes of "123456789"; the profile is the one that the
// MFRC531 is shipped with (data sheet 005, Table 15).

#![tactic(auto)]

use edition::Edition;
use std::io;

const SHIPPED: [u8; 32] = [
    0x00, 0x58, 0x3F, 0x3F, 0x19, 0x13, 0x3F, 0x3B, 0x00, 0x73, 0x08, 0xAD, 0xFF, 0x1E, 0x41, 0x00,
    0x00, 0x06, 0x03, 0x63, 0x63, 0x00, 0x00, 0x00, 0x00, 0x08, 0x07, 0x06, 0x0A, 0x02, 0x00, 0x00,
];

// Prints a name and the checksum of "123456789" in the mode of ChannelRedundancy `redundancy`, in so many digits.
fn show_checksum(
    rt: &impl Print,
    name: &str,
    redundancy: u8,
    lsb: u8,
    msb: u8,
    digits: usize,
) -> io::Result<()> {
    let value = crc::checksum(redundancy, lsb, msb, b"123456789");
    println!(rt; "{name}: {value:0digits$x}")
}

// Prints whether the shipped profile passes.
fn show_shipped(rt: &impl Print) -> io::Result<()> {
    let profile = SHIPPED;
    let word = match profile::check(Edition::Mfrc531, &profile) {
        Ok(()) => "pass",
        Err(_) => "refused",
    };
    println!(rt; "shipped profile of the MFRC531: {word}")
}

fn main(rt: HostRuntime) -> io::Result<()> {
    show_checksum(&rt, "CRC-16/ISO-IEC-14443-3-A", 0x00, 0x63, 0x63, 4)?;
    show_checksum(&rt, "CRC-16/X-25", 0x20, 0xFF, 0xFF, 4)?;
    show_checksum(
        &rt,
        "CRC-8, polynomial 1D reflected, preset FF",
        0x10,
        0xFF,
        0x00,
        2,
    )?;
    show_shipped(&rt)
}

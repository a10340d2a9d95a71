// Runs the number of manual 15 for WriteE2: five bytes from 16Ch on, each written as soon as the one before, take three programmings.
//
// The first byte is programmed alone, since none waits behind it yet; then the three that fit before the block's end at 16Fh; then the last,
// at 170h. Each programming takes 78,648 clocks. A line is printed one clock before the end of each and at its end; then the same with all clocks in
// one advance, and with one clock less.

#![tactic(auto)]

use program_blank_chip::{blank_chip, blank_image};
use state::Chip;
use std::io;

const COMMAND: u8 = 0x01;

const FIFO_DATA: u8 = 0x02;

const FIFO_LENGTH: u8 = 0x04;

const SECONDARY_STATUS: u8 = 0x05;

const INTERRUPT_RQ: u8 = 0x07;

// A chip that is started from an image of zeros behind its product type.
fn started() -> Chip {
    entry_by_value::start(blank_chip(), &blank_image()).chip
}

fn written(chip: Chip, address: u8, v: u8) -> Chip {
    entry_by_value::host_write(chip, address, v).chip
}

// WriteE2, the address 16Ch low byte first, and the five bytes.
fn five_bytes_written(chip: Chip) -> Chip {
    let bytes = [0x6Cu8, 0x01, 0x11, 0x22, 0x33, 0x44, 0x55];
    let mut next = written(chip, COMMAND, 0x01);
    for byte in bytes {
        next = written(next, FIFO_DATA, byte);
    }
    next
}

// So many clocks, in one advance.
fn advanced(chip: Chip, clocks: u32) -> Chip {
    entry_by_value::advance(chip, clocks).chip
}

// The byte that a host read answers.
fn read(chip: Chip, address: u8) -> u32 {
    entry_by_value::host_read(chip, address).answer / 0x100
}

// The EEPROM's bytes at 16Ch to 170h.
fn show_eeprom(rt: &impl Print, chip: Chip) -> io::Result<()> {
    for byte in &chip.eeprom[0x16C..0x171] {
        print!(rt; "   {byte:02x}")?;
    }
    Ok(())
}

// A line of the table.
fn show(rt: &impl Print, chip: Chip, clock: u32) -> io::Result<()> {
    let ready = read(chip, SECONDARY_STATUS) / 0x40 % 2;
    let tx = read(chip, INTERRUPT_RQ) / 0x10 % 2;
    let held = read(chip, FIFO_LENGTH);
    print!(rt; "      {ready}")?;
    print!(rt; "     {tx}")?;
    print!(rt; "          {held}")?;
    show_eeprom(rt, chip)?;
    print!(rt; " {clock}")?;
    println!(rt; "")
}

// A programming of 78,648 clocks: a line one clock before its end, and a line at its end.
fn programmed(rt: &impl Print, chip: Chip, before: u32, end: u32) -> io::Result<Chip> {
    let near = advanced(chip, 78_647);
    show(rt, near, before)?;
    let next = advanced(near, 1);
    show(rt, next, end)?;
    Ok(next)
}

fn main(rt: HostRuntime) -> io::Result<()> {
    println!(rt; "WriteE2 of 11 22 33 44 55 at 16Ch, one by one, no clock between")?;
    println!(rt; "E2Ready TxIRq FIFOLength 16Ch 16Dh 16Eh 16Fh 170h at clock")?;
    let written = five_bytes_written(started());
    show(&rt, written, 0)?;
    let first = programmed(&rt, written, 78_647, 78_648)?;
    let second = programmed(&rt, first, 157_295, 157_296)?;
    programmed(&rt, second, 235_943, 235_944)?;
    println!(rt; "In one advance")?;
    show(&rt, advanced(written, 235_943), 235_943)?;
    show(&rt, advanced(written, 235_944), 235_944)
}

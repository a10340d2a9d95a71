// A walk through the chip: starts, FIFO, EEPROM, keys, timer, refusals and the editions, as a table with a line for each step. `program_exchanges` has checksums and frames.

#![tactic(auto)]

ghost use Rattle.std.specs.Prelude.{◌+◌, ◌≤◌, length};

use program_blank_chip::{blank_chip, blank_image};
use program_steps::{steps, table};
use state::{Chip, EDITION, PAGE};

// Bytes from an address on.
fn place(image: &mut [u8; 512], at: usize, bytes: &[u8])
    requires { at + length bytes.now ≤ 512 }
{
    let end = at + bytes.len();
    image[at..end].copy_from_slice(bytes);
}

// The profile that the MFRC531 is shipped with (data sheet 005, Table 15), page by page.
fn place_profile(image: &mut [u8; 512], at: usize)
    requires { at + 32 ≤ 512 }
{
    place(image, at, b"\x00\x58\x3F\x3F\x19\x13\x3F\x3B");
    place(image, at + 0x08, b"\x00\x73\x08\xAD\xFF\x1E\x41\x00");
    place(image, at + 0x10, b"\x00\x06\x03\x63\x63\x00\x00\x00");
    place(image, at + 0x18, b"\x00\x08\x07\x06\x0A\x02\x00\x00");
}

// The EEPROM image that the chip starts from: the MFRC531's product type; the shipped profile at 010h, and at 030h with FIFOLevel 04h; A7h at 07Fh;
// the key A0 A1 A2 A3 A4 A5 at 080h; 00h elsewhere.
fn made() -> [u8; 512] {
    let mut image = blank_image();
    place_profile(&mut image, 0x10);
    place_profile(&mut image, 0x30);
    place(&mut image, 0x49, b"\x04");
    place(&mut image, 0x7F, b"\xA7");
    place(
        &mut image,
        0x80,
        b"\x5A\xF0\x5A\xE1\x5A\xD2\x5A\xC3\x5A\xB4\x5A\xA5",
    );
    image
}

// The same with other bytes at 001h-003h.
fn made_as(second: u8, third: u8, fourth: u8) -> [u8; 512] {
    let mut image = made();
    image[1] = second;
    image[2] = third;
    image[3] = fourth;
    image
}

// Starts: only an image of 512 bytes that begins with an edition's product type is taken.
fn starts(rt: &impl Print, image: &[u8; 512]) -> Chip {
    let short = [0u8; 511];
    let mut c = steps::start(
        rt,
        blank_chip(),
        &short,
        b"start from 511 bytes 00h: refused for the length",
    );
    let zeros = [0u8; 512];
    c = steps::start(
        rt,
        c,
        &zeros,
        b"start from 512 bytes 00h: refused, as they are no edition's",
    );
    let mixed = made_as(0x88, 0xFF, 0x0F);
    c = steps::start(
        rt,
        c,
        &mixed,
        b"start from an image that begins with 30h 88h FFh 0Fh: refused",
    );
    steps::start(
        rt,
        c,
        image,
        b"start from an image of the MFRC531; KeyErr, as no key is loaded",
    )
}

// The FIFO holds 64 bytes; one more sets FIFOOvfl, which a flush clears.
fn fifo(rt: &impl Print, chip: Chip) -> Chip {
    let bytes = [0x77u8; 63];
    let mut c = steps::feed(rt, chip, b"\x80", b"80h into FIFOData");
    c = steps::feed(rt, c, &bytes, b"63 bytes 77h into FIFOData: HiAlert");
    c = steps::feed(rt, c, b"\x99", b"a 65th byte: FIFOOvfl");
    c = steps::read(rt, c, 0x02, b"read FIFOData: the first byte, 80h");
    c = steps::write(
        rt,
        c,
        0x09,
        0x01,
        b"Control, FlushFIFO: empty, FIFOOvfl cleared, LoAlert",
    );
    steps::read(rt, c, 0x02, b"read FIFOData while empty: 00h")
}

// ReadE2 may read below 080h only.
fn read_e2(rt: &impl Print, chip: Chip) -> Chip {
    let mut c = steps::command(
        rt,
        chip,
        0x03,
        b"\x11\x00\x02",
        b"ReadE2 of 2 bytes at 011h",
    );
    c = steps::read(rt, c, 0x02, b"read FIFOData: 58h");
    c = steps::read(rt, c, 0x02, b"read FIFOData: 3Fh");
    c = steps::command(rt, c, 0x03, b"\x7F\x00\x01", b"ReadE2 of 1 byte at 07Fh");
    c = steps::read(rt, c, 0x02, b"read FIFOData: A7h");
    c = steps::command(
        rt,
        c,
        0x03,
        b"\x7F\x00\x02",
        b"ReadE2 of 2 bytes at 07Fh: AccessErr, nothing offered",
    );
    c = steps::command(rt, c, 0x00, b"", b"Idle: AccessErr cleared, and no IdleIRq");
    steps::command(rt, c, 0x2A, b"", b"unknown code 2Ah: Idle, and IdleIRq")
}

// LoadConfig may start at 010h to 060h. The profile at 030h has another FIFOLevel.
fn load_config(rt: &impl Print, chip: Chip) -> Chip {
    let mut c = steps::command(rt, chip, 0x07, b"\x30\x00", b"LoadConfig from 030h");
    c = steps::read(rt, c, 0x29, b"read FIFOLevel: 04h");
    c = steps::command(rt, c, 0x07, b"\x61\x00", b"LoadConfig from 061h: AccessErr");
    c = steps::read(rt, c, 0x29, b"read FIFOLevel: 04h still");
    c = steps::command(rt, c, 0x07, b"\x10\x00", b"LoadConfig from 010h");
    steps::read(rt, c, 0x29, b"read FIFOLevel: 08h")
}

// Keys, from the FIFO and from the EEPROM.
fn keys(rt: &impl Print, chip: Chip) -> Chip {
    let mut c = steps::command(
        rt,
        chip,
        0x19,
        b"\x5A\xF0\x5A\xE1\x5A\xD2\x5A\xC3\x5A\xB4\x5A\xA5",
        b"LoadKey: KeyErr cleared; LoAlert, as more than 8 bytes were held on the way",
    );
    table::bytes(rt, b"         the key:", &c.key);
    c = steps::command(
        rt,
        c,
        0x19,
        b"\x5B\xF0\x5A\xE1\x5A\xD2\x5A\xC3\x5A\xB4\x5A\xA5",
        b"LoadKey with 5Bh for the first 5Ah: KeyErr",
    );
    c = steps::command(
        rt,
        c,
        0x0B,
        b"\x80\x00",
        b"LoadKeyE2 from 080h: KeyErr cleared",
    );
    c = steps::command(rt, c, 0x0B, b"\xF5\x01", b"LoadKeyE2 from 1F5h: KeyErr");
    steps::command(
        rt,
        c,
        0x0B,
        b"\x80\x00",
        b"LoadKeyE2 from 080h: KeyErr cleared",
    )
}

// The timer: reload 3 and prescaler 1 make 6 clocks, which TAutoRestart repeats.
fn timer(rt: &impl Print, chip: Chip) -> Chip {
    let mut c = steps::set(chip, 0x2C, 0x03);
    c = steps::set(c, 0x2A, 0x21);
    c = steps::write(
        rt,
        c,
        0x06,
        0xA0,
        b"TimerReload 3, TPreScaler 1 and TAutoRestart, InterruptEn for TimerIRq",
    );
    c = steps::write(rt, c, 0x09, 0x02, b"Control, TStartNow");
    c = steps::clocks(
        rt,
        c,
        4_294_967_295,
        b"4,294,967,295 clocks: TimerIRq, and TimerValue 2 after 715,827,882 ends and three clocks",
    );
    c = steps::set(c, 0x2A, 0x01);
    c = steps::write(rt, c, 0x09, 0x02, b"TAutoRestart 0; Control, TStartNow");
    c = steps::clocks(rt, c, 5, b"5 clocks");
    steps::clocks(
        rt,
        c,
        1,
        b"1 clock, the 6th: TimerIRq, and IRq in PrimaryStatus",
    )
}

// WriteE2 that runs on from 1FFh to 000h, where it meets block 0.
fn write_e2(rt: &impl Print, chip: Chip) -> Chip {
    let mut c = steps::command(
        rt,
        chip,
        0x01,
        b"\xFE\x01\xA1\xA2\xA3",
        b"WriteE2 of A1h A2h A3h at 1FEh: A1h is programmed, two bytes wait",
    );
    c = steps::command(rt, c, 0x00, b"", b"Idle while programming: ignored");
    c = steps::clocks(rt, c, 78_647, b"78,647 clocks");
    c = steps::clocks(
        rt,
        c,
        1,
        b"1 clock, so 78,648: A2h is programmed, A3h waits",
    );
    c = steps::clocks(rt, c, 78_647, b"78,647 clocks");
    c = steps::clocks(
        rt,
        c,
        1,
        b"1 clock: A3h would go to 000h, so AccessErr, and it stays",
    );
    let bytes = [c.eeprom[0x1FE], c.eeprom[0x1FF], c.eeprom[0x000]];
    table::bytes(rt, b"         EEPROM 1FEh, 1FFh, 000h:", &bytes);
    c
}

// Calls that are refused in every state, and a chip that is malformed: bits 6-3 of Page always read 0.
fn refused(rt: &impl Print, chip: Chip, image: &[u8; 512]) -> Chip {
    let mut c = steps::read(rt, chip, 64, b"read address 64: refused");
    c = steps::write(rt, c, 64, 0x00, b"write address 64: refused");
    c.state[PAGE] = 0x08;
    c = steps::read(rt, c, 0x01, b"read Command of a malformed chip: refused");
    steps::start(rt, c, image, b"start of the malformed chip from the image")
}

// The product type that ReadE2 reads.
fn product_type(rt: &impl Print, chip: Chip) -> Chip {
    let mut c = steps::command(
        rt,
        chip,
        0x03,
        b"\x00\x00\x04",
        b"ReadE2 of the product type",
    );
    c = steps::read(rt, c, 0x02, b"read FIFOData");
    c = steps::read(rt, c, 0x02, b"read FIFOData");
    c = steps::read(rt, c, 0x02, b"read FIFOData");
    steps::read(rt, c, 0x02, b"read FIFOData")
}

// The MF RC530, from the same image with its product type; and a chip whose memory is not of its edition.
fn editions(rt: &impl Print, chip: Chip) {
    let mut c = product_type(rt, chip);
    let other = made_as(0x88, 0xFE, 0x03);
    c = steps::start(rt, c, &other, b"start from an image of the MF RC530");
    c = product_type(rt, c);
    c.state[EDITION] = 0;
    c = steps::read(
        rt,
        c,
        0x01,
        b"read Command of a chip whose memory is of the other edition: refused",
    );
    c.state[EDITION] = 2;
    steps::read(
        rt,
        c,
        0x01,
        b"read Command of a chip whose number is no edition's: refused",
    );
}

fn main(rt: HostRuntime) {
    table::heading(&rt);
    let image = made();
    let mut chip = starts(&rt, &image);
    chip = fifo(&rt, chip);
    chip = read_e2(&rt, chip);
    chip = load_config(&rt, chip);
    chip = keys(&rt, chip);
    chip = timer(&rt, chip);
    chip = write_e2(&rt, chip);
    chip = refused(&rt, chip, &image);
    editions(&rt, chip);
}

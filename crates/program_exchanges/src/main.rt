// A walk through checksums and frames, sent and received, as a table with a line for each step. `program_walkthrough` has the rest of the chip.

#![tactic(auto)]

use program_blank_chip::{blank_chip, blank_image};
use program_steps::{steps, table};
use state::Chip;

// A start from an image of zeros behind the product type, and the settings that the frames go by, as the MFRC531 is shipped: the preset 6363h, WaterLevel 8, and a timer
// that a frame sent starts and a frame received stops.
fn started(rt: &impl Print) -> Chip {
    let image = blank_image();
    let mut c = steps::start(
        rt,
        blank_chip(),
        &image,
        b"start from a blank image; KeyErr, as no key is loaded",
    );
    c = steps::set(c, 0x23, 0x63);
    c = steps::set(c, 0x24, 0x63);
    c = steps::set(c, 0x29, 0x08);
    c = steps::set(c, 0x2A, 0x07);
    c = steps::set(c, 0x2B, 0x06);
    steps::set(c, 0x2C, 0x0A)
}

// Checksums with preset 6363h, and with preset FFFFh and CRC3309.
fn checksums(rt: &impl Print, chip: Chip) -> Chip {
    let mut c = steps::command(rt, chip, 0x12, b"", b"CalcCRC: the preset 6363h");
    c = steps::feed(rt, c, b"\x12\x34", b"12h 34h into FIFOData: 26h CFh, TxIRq");
    c = steps::command(rt, c, 0x00, b"", b"Idle: the result stays");
    c = steps::set(c, 0x22, 0x23);
    c = steps::set(c, 0x23, 0xFF);
    c = steps::set(c, 0x24, 0xFF);
    c = steps::command(
        rt,
        c,
        0x12,
        b"\x00\x00\x00",
        b"CalcCRC of 00h 00h 00h, preset FFFFh, CRC3309: CCh C6h",
    );
    c = steps::set(c, 0x23, 0x63);
    c = steps::set(c, 0x24, 0x63);
    steps::write(
        rt,
        c,
        0x22,
        0x0F,
        b"ChannelRedundancy 0Fh: odd parity, TxCRCEn, RxCRCEn; preset 6363h",
    )
}

// Transmit. The shipped profile has TStartTxEnd, so a take starts the timer: TimerReload 0Ah, a step each 128 clocks.
fn transmit(rt: &impl Print, chip: Chip) -> Chip {
    let mut c = steps::take(rt, chip, b"take while CalcCRC is active: refused");
    c = steps::command(rt, c, 0x1A, b"", b"Transmit");
    c = steps::take(rt, c, b"take while no byte is held: refused");
    c = steps::feed(rt, c, b"\x12\x34", b"12h 34h into FIFOData");
    c = steps::take_short(rt, c, b"take into 65 bytes: refused");
    c = steps::take(
        rt,
        c,
        b"take into 66 bytes: CRC added, TxIRq, Idle; the timer runs",
    );
    steps::clocks(rt, c, 128, b"128 clocks: a timer step")
}

// Frames that are malformed, for a chip that receives.
fn malformed_frames(rt: &impl Print, chip: Chip) -> Chip {
    let long = [0x01u8; 65];
    let mut c = steps::deliver(rt, chip, b"", b"", 0, b"deliver no byte: refused");
    c = steps::deliver(rt, c, &long, &long, 0, b"deliver 65 bytes: refused");
    c = steps::deliver(
        rt,
        c,
        b"\x12\x34",
        b"\x01",
        0,
        b"deliver two bytes with one parity value: refused",
    );
    c = steps::deliver(
        rt,
        c,
        b"\x12",
        b"\x02",
        0,
        b"deliver with parity value 2: refused",
    );
    steps::deliver(
        rt,
        c,
        b"\x12",
        b"\x01",
        8,
        b"deliver with 8 last bits: refused",
    )
}

// Transceive. The shipped profile has TStopRxBegin, so a delivery stops the timer.
fn transceive(rt: &impl Print, chip: Chip) -> Chip {
    let mut c = steps::write(rt, chip, 0x0F, 0x07, b"BitFraming 07h: 7 last bits");
    c = steps::command(rt, c, 0x1E, b"\x26", b"Transceive of 26h");
    c = steps::deliver(
        rt,
        c,
        b"\x01",
        b"\x00",
        0,
        b"deliver before the take: refused",
    );
    c = steps::take(
        rt,
        c,
        b"take: last bits, so no CRC; TxIRq, receiving; the timer restarts",
    );
    c = steps::clocks(rt, c, 300, b"300 clocks: two timer steps");
    c = malformed_frames(rt, c);
    c = steps::deliver(
        rt,
        c,
        b"\x12\x34\x26\xCF",
        b"\x01\x00\x00\x01",
        0,
        b"deliver 12h 34h 26h CFh: CRC dropped, RxIRq, Idle; the timer stops",
    );
    c = steps::read(rt, c, 0x02, b"read FIFOData: 12h");
    steps::read(rt, c, 0x02, b"read FIFOData: 34h")
}

// Receive of frames with errors.
fn receive(rt: &impl Print, chip: Chip) -> Chip {
    let mut c = steps::command(rt, chip, 0x16, b"", b"Receive");
    c = steps::deliver(
        rt,
        c,
        b"\x12\x34\x26\xCE",
        b"\x01\x00\x00\x00",
        0,
        b"deliver 12h 34h 26h CEh: CRCErr, CRC dropped",
    );
    c = steps::command(rt, c, 0x16, b"", b"Receive: CRCErr cleared");
    c = steps::deliver(
        rt,
        c,
        b"\x12\x34\x26\xCF",
        b"\x01\x01\x00\x01",
        0,
        b"deliver 12h 34h 26h CFh, 34h with parity 1: ParityErr",
    );
    c = steps::command(rt, c, 0x16, b"", b"Receive: ParityErr cleared");
    c = steps::deliver(
        rt,
        c,
        b"\x12\x05",
        b"\x01\x00",
        3,
        b"deliver 12h and 3 last bits: CRCErr, the frame passes whole",
    );
    c = steps::deliver(rt, c, b"\x12", b"\x01", 0, b"deliver while Idle: refused");
    c = steps::write(rt, c, 0x09, 0x01, b"Control, FlushFIFO");
    steps::command(rt, c, 0x00, b"", b"Idle: CRCErr cleared")
}

fn main(rt: HostRuntime) {
    table::heading(&rt);
    let mut chip = started(&rt);
    chip = checksums(&rt, chip);
    chip = transmit(&rt, chip);
    chip = transceive(&rt, chip);
    receive(&rt, chip);
}

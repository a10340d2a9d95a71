// The steps that the program makes: each makes its calls, prints their line, and hands the chip on. A contract says which calls, in order, with
// every argument, and that the chip handed on is the one that they leave.
ghost use Rattle.std.specs.Prelude.{[], ◌∷◌, map, ◌≡◌, replicate};
ghost use Rattle.machine.specs.Refusals.{start, host_read, host_write, advance, take_frame, deliver};
ghost use Rattle.program_steps.specs.Leads.{LeadsBy};

use crate::table;
use entry_by_value::Outcome;
use state::Chip;

const COMMAND: u8 = 0x01;

const FIFO_DATA: u8 = 0x02;

const INTERRUPT_RQ: u8 = 0x07;

// A host write with no line of its own.
pub fn set(chip: Chip, address: u8, v: u8) -> Chip
    ensures { LeadsBy (host_write address v ∷ []) chip result }
{
    entry_by_value::host_write(chip, address, v).chip
}

// Every request is cleared, so that a line shows those of its own step.
fn cleared(chip: Chip) -> Chip
    ensures { LeadsBy (host_write 0x07 0x3F ∷ []) chip result }
{
    set(chip, INTERRUPT_RQ, 0x3F)
}

// The line of an outcome, and its chip.
fn shown(rt: &impl Print, out: Outcome, step: &[u8]) -> Chip
    ensures { result ≡ out.chip }
{
    table::line(rt, out.chip, out.answer, step);
    out.chip
}

// A start. Page is 80h after it, which shows page 0 at every address; it is set to 00h before the line, so that addresses are registers.
pub fn start(rt: &impl Print, chip: Chip, image: &[u8], step: &[u8]) -> Chip
    ensures { LeadsBy (start image.now ∷ host_write 0x00 0x00 ∷ []) chip result }
{
    let out = entry_by_value::start(chip, image);
    let next = set(out.chip, 0x00, 0x00);
    table::line(rt, next, out.answer, step);
    next
}

pub fn write(rt: &impl Print, chip: Chip, address: u8, v: u8, step: &[u8]) -> Chip
    ensures { LeadsBy (host_write 0x07 0x3F ∷ host_write address v ∷ []) chip result }
{
    shown(
        rt,
        entry_by_value::host_write(cleared(chip), address, v),
        step,
    )
}

pub fn read(rt: &impl Print, chip: Chip, address: u8, step: &[u8]) -> Chip
    ensures { LeadsBy (host_write 0x07 0x3F ∷ host_read address ∷ []) chip result }
{
    shown(rt, entry_by_value::host_read(cleared(chip), address), step)
}

pub fn clocks(rt: &impl Print, chip: Chip, count: u32, step: &[u8]) -> Chip
    ensures { LeadsBy (host_write 0x07 0x3F ∷ advance count ∷ []) chip result }
{
    shown(rt, entry_by_value::advance(cleared(chip), count), step)
}

// Bytes for FIFOData, one by one, after a call; the last call's answer is handed on.
fn fed(out: Outcome, bytes: &[u8]) -> Outcome
    ensures { LeadsBy (map (host_write 0x02) bytes.now) out.chip result.chip }
{
    let mut last = out;
    for byte in bytes {
        last = entry_by_value::host_write(last.chip, FIFO_DATA, *byte);
    }
    last
}

pub fn feed(rt: &impl Print, chip: Chip, bytes: &[u8], step: &[u8]) -> Chip
    ensures { LeadsBy (host_write 0x07 0x3F ∷ map (host_write 0x02) bytes.now) chip result }
{
    let ready = entry_by_value::host_write(chip, INTERRUPT_RQ, 0x3F);
    shown(rt, fed(ready, bytes), step)
}

// A command and the bytes for it.
pub fn command(rt: &impl Print, chip: Chip, code: u8, bytes: &[u8], step: &[u8]) -> Chip
    ensures { let calls = host_write 0x07 0x3F ∷ host_write 0x01 code ∷ map (host_write 0x02) bytes.now in
        LeadsBy calls chip result }
{
    let active = entry_by_value::host_write(cleared(chip), COMMAND, code);
    shown(rt, fed(active, bytes), step)
}

// The bytes of the frame taken, where the number answered has a count of them.
fn frame(rt: &impl Print, answer: u32, buffer: &[u8]) {
    let count = (answer / 0x100 % 0x100) as usize;
    if count == 0 {
        return;
    }
    if count <= buffer.len() {
        table::bytes(rt, b"         the frame:", &buffer[0..count]);
    }
}

// A take into a buffer of 66 bytes, with a line of the frame's bytes.
pub fn take(rt: &impl Print, chip: Chip, step: &[u8]) -> Chip
    ensures { LeadsBy (host_write 0x07 0x3F ∷ take_frame (replicate 66 0) ∷ []) chip result }
{
    let mut buffer = [0u8; 66];
    let out = entry_by_value::take(cleared(chip), &mut buffer);
    let answer = out.answer;
    let next = shown(rt, out, step);
    frame(rt, answer, &buffer);
    next
}

// A take into a buffer that is too short by a byte.
pub fn take_short(rt: &impl Print, chip: Chip, step: &[u8]) -> Chip
    ensures { LeadsBy (host_write 0x07 0x3F ∷ take_frame (replicate 65 0) ∷ []) chip result }
{
    let mut buffer = [0u8; 65];
    shown(rt, entry_by_value::take(cleared(chip), &mut buffer), step)
}

pub fn deliver(
    rt: &impl Print,
    chip: Chip,
    bytes: &[u8],
    parities: &[u8],
    last_bits: u8,
    step: &[u8],
) -> Chip
    ensures { let delivery = deliver bytes.now parities.now last_bits in
        LeadsBy (host_write 0x07 0x3F ∷ delivery ∷ []) chip result }
{
    shown(
        rt,
        entry_by_value::deliver(cleared(chip), bytes, parities, last_bits),
        step,
    )
}

// The table that the program prints: a line for each step, with what was answered and what the registers are after it. The functions here print
// and answer nothing. Their contracts say only the latter: what is printed is no part of a contract.
ghost use Rattle.std.specs.Prelude.{◌≡◌};

use state::Chip;

fn text(rt: &impl Print, words: &[u8]) {
    let _ = rt.write_all(words);
}

fn byte(rt: &impl Print, v: u8) {
    let _ = print!(rt; " {v:02x}");
}

// A register as the host reads it, or `--` where the read is refused.
fn register(rt: &impl Print, chip: Chip, address: u8) {
    let out = entry_by_value::host_read(chip, address);
    if out.answer % 0x100 == 0 {
        byte(rt, (out.answer / 0x100 % 0x100) as u8);
    } else {
        text(rt, b" --");
    }
}

// The registers that the table has. None of them is FIFOData, so that reading them changes nothing.
fn registers(rt: &impl Print, chip: Chip) {
    let addresses = [0x01u8, 0x03, 0x04, 0x05, 0x07, 0x0A, 0x0C, 0x0D, 0x0E];
    for address in addresses {
        register(rt, chip, address);
    }
}

pub fn heading(rt: &impl Print)
    ensures { result ≡ tt }
{
    text(
        rt,
        b"no: number of the refusal, 00 for none. by: the byte read, or how many bytes the frame taken has. lb: its last bits.\n",
    );
    text(
        rt,
        b"01 Command, 03 PrimaryStatus, 04 FIFOLength, 05 SecondaryStatus, 07 InterruptRq, 0A ErrorFlag, 0C TimerValue,\n",
    );
    text(
        rt,
        b"0D and 0E CRC result, after the step. Before each step the host clears InterruptRq. Columns are hexadecimal.\n\n",
    );
    text(rt, b"no by lb 01 03 04 05 07 0A 0C 0D 0E step\n");
}

// The line of a step that left this chip and answered this number.
pub fn line(rt: &impl Print, chip: Chip, answer: u32, step: &[u8])
    ensures { result ≡ tt }
{
    let number = answer % 0x100;
    let _ = print!(rt; "{number:02x}");
    byte(rt, (answer / 0x100 % 0x100) as u8);
    byte(rt, (answer / 0x1_0000 % 0x100) as u8);
    registers(rt, chip);
    text(rt, b" ");
    text(rt, step);
    text(rt, b"\n");
}

// A line of bytes.
pub fn bytes(rt: &impl Print, words: &[u8], values: &[u8])
    ensures { result ≡ tt }
{
    text(rt, words);
    for value in values {
        byte(rt, *value);
    }
    text(rt, b"\n");
}

// The line that a person reads for a verdict (manual 11.3), filled into a buffer.

#![tactic(auto)]

ghost use Rattle.std.specs.Prelude.{◌≡◌, [], ◌∷◌, ◌++◌, ◌+◌, ◌<◌, ◌≤◌, length};
ghost use Rattle.bits.specs.Text.{digit, hex_byte, decimal_byte};
ghost use Rattle.profile.specs.Answer.{answer_of};
ghost use Rattle.profile_line.specs.Line.{refuse_text, refuse_at_text, refuse_bit_text, answer_text, text_of, LineMeets};

use profile::Refusal;

// A text of up to 32 bytes: the first `length` bytes of its own.
// Kept: tried Display with `write!` into a fmt::Write; the proof did not close: write_fmt's contract does not rule out Err, and write_line cannot fail.
#[derive(Drop)]
struct Text {
    bytes: [u8; 32],
    length: usize,
}

impl Text {
    // Adds the bytes of a slice.
    fn put(&mut self, piece: &[u8])
        requires { self.old.length + length piece.now ≤ 32 }
        ensures size { self.new.length ≡ self.old.length + length piece.now }
        ensures text { text_of self.new ≡ text_of self.old ++ piece.now }
    {
        let end = self.length + piece.len();
        self.bytes[self.length..end].copy_from_slice(piece);
        self.length = end;
    }

    // Adds a digit: 0 to 9, then A to F.
    fn put_digit(&mut self, value: u8)
        requires { (self.old.length < 32) × (value < 16) }
        ensures size { self.new.length ≡ self.old.length + 1 }
        ensures text { text_of self.new ≡ text_of self.old ++ digit value ∷ [] }
    {
        if value < 10 {
            self.put(&[48 + value]);
        } else {
            self.put(&[55 + value]);
        }
    }

    // Adds a byte as two hexadecimal digits.
    fn put_hex(&mut self, value: u8)
        requires { self.old.length + 2 ≤ 32 }
        ensures size { self.new.length ≡ self.old.length + 2 }
        ensures text { text_of self.new ≡ text_of self.old ++ hex_byte value }
    {
        self.put_digit(value / 16);
        self.put_digit(value % 16);
    }

    // Adds a byte in decimal.
    fn put_decimal(&mut self, value: u8)
        requires { self.old.length + 3 ≤ 32 }
        ensures size { self.new.length ≤ self.old.length + 3 }
        ensures text { text_of self.new ≡ text_of self.old ++ decimal_byte value }
    {
        if value < 10 {
            self.put_digit(value);
        } else if value < 100 {
            self.put_digit(value / 10);
            self.put_digit(value % 10);
        } else {
            self.put_digit(value / 10 / 10);
            self.put_digit(value / 10 % 10);
            self.put_digit(value % 10);
        }
    }

    // Adds a refusal's number.
    fn put_refuse(&mut self, number: u8)
        requires { self.old.length + 10 ≤ 32 }
        ensures size { self.new.length ≤ self.old.length + 10 }
        ensures text { text_of self.new ≡ text_of self.old ++ refuse_text number }
    {
        self.put(b"refuse ");
        self.put_decimal(number);
    }

    // Adds a refusal's number and the register.
    fn put_refuse_at(&mut self, number: u8, register: u8)
        requires { self.old.length + 16 ≤ 32 }
        ensures size { self.new.length ≤ self.old.length + 16 }
        ensures text { text_of self.new ≡ text_of self.old ++ refuse_at_text number register }
    {
        self.put_refuse(number);
        self.put(b" at ");
        self.put_hex(register);
    }

    // Adds a refusal's number, the register and the bit.
    fn put_refuse_bit(&mut self, number: u8, register: u8, bit: u8)
        requires { self.old.length + 24 ≤ 32 }
        ensures size { self.new.length ≤ self.old.length + 24 }
        ensures text { text_of self.new ≡ text_of self.old ++ refuse_bit_text number register bit }
    {
        self.put_refuse_at(number, register);
        self.put(b" bit ");
        self.put_decimal(bit);
    }

    // Adds the verdict's text, without the newline.
    fn put_verdict(&mut self, verdict: Result<(), Refusal>)
        requires { self.old.length + 24 ≤ 32 }
        ensures size { self.new.length ≤ self.old.length + 24 }
        ensures text { text_of self.new ≡ text_of self.old ++ answer_text (answer_of verdict) }
    {
        let Err(refusal) = verdict else {
            self.put(b"pass");
            return;
        };
        match refusal {
            Refusal::Length => self.put_refuse(9),
            Refusal::FixedBit { register, bit } => self.put_refuse_bit(10, register, bit),
            Refusal::PreScaler { register } => self.put_refuse_at(11, register),
            Refusal::Reload { register } => self.put_refuse_at(12, register),
            Refusal::WaterLevel { register } => self.put_refuse_at(13, register),
        }
    }
}

// Fills the verdict's line, newline ended, into the start of `line`, and answers its length. Later bytes stay. A buffer under 32 bytes
// may be too short for some verdict: it is left as it was, and the answer is 0.
// Kept: `LineMeets` has 0 for a buffer that is too short.
pub fn write_line(verdict: Result<(), Refusal>, line: &mut [u8]) -> usize
    ensures { LineMeets (answer_of verdict) line.old line.new result }
{
    if line.len() < 32 {
        return 0;
    }
    let mut text = Text {
        bytes: [0; 32],
        length: 0,
    };
    text.put_verdict(verdict);
    text.put(b"\n");
    let length = text.length;
    line[..length].copy_from_slice(&text.bytes[..length]);
    length
}

// What every chip is by its types, `Whole` (state, Meets), as a promise: the events ask it of their callers, who cannot see how long an array is
// that a `&` or a `&mut` leads to. The functions here do nothing when they run, and each entry point calls `whole` before its event.

#![tactic(auto)]

ghost use Rattle.std.specs.Prelude.{◌≡◌, length};
ghost use Rattle.bits.specs.Bits.{Bytes};
ghost use Rattle.state.specs.Meets.{Whole};

use state::Chip;

// A slice of bytes has bytes.
fn are_bytes(slice: &[u8])
    ensures { Bytes slice.now }
{}

// An array has as many elements as its type says.
fn counted<T, const N: usize>(array: &[T; N])
    ensures { length array.now ≡ N }
{}

// An array of bytes has bytes, as many as its type says.
fn bytes<const N: usize>(array: &[u8; N])
    ensures count { length array.now ≡ N }
    ensures bytes { Bytes array.now }
{
    are_bytes(array);
}

// The arrays of any chip have their lengths, and those of bytes have bytes.
pub fn whole(chip: &Chip)
    ensures { Whole chip.now }
{
    counted(&chip.clocks);
    counted(&chip.numbers);
    bytes(&chip.state);
    bytes(&chip.registers);
    bytes(&chip.slots);
    bytes(&chip.latch);
    bytes(&chip.key);
    bytes(&chip.eeprom);
}

// Lengths of lists: the end of a loop that goes no further than either of two.

// Kept: `greater_of_two` is an edit of this function; crates that want the lesser of two lengths take `min` of std.

#![tactic(auto)]

ghost use Rattle.std.specs.Prelude.{◌≡◌, ◌-◌};

// The lesser of two lengths.
pub fn least(a: usize, b: usize) -> usize
    ensures { result ≡ a - (a - b) }
{
    a.min(b)
}

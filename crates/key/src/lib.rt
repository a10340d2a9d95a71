// The key unit (manual 7.5): a six-byte key from its twelve stored bytes.

#![tactic(auto)]

ghost use Rattle.std.specs.Prelude.{◌≡◌, is_some, unwrap_or};
ghost use Rattle.key.specs.Key.{paired, format_holds, empty_key, judged_key};

// A byte holds its nibble in the stored form.
fn paired(byte: u8) -> bool
    ensures { result ≡ paired byte }
{
    byte == (15 - byte % 16) * 16 + byte % 16
}

// The key that twelve bytes stand for. Each pair is tested before its byte is made; there is none where one byte is bad, and
// `judged_key` has the empty key for it.
pub fn key_of(stored: [u8; 12]) -> Option<[u8; 6]>
    ensures loaded { is_some result ≡ format_holds stored }
    ensures bytes { unwrap_or result empty_key ≡ judged_key stored }
{
    let mut bytes = [0u8; 6];
    for i in 0..6 {
        let upper = stored[2 * i];
        let lower = stored[2 * i + 1];
        if !paired(upper) || !paired(lower) {
            return None;
        }
        bytes[i] = upper % 16 * 16 + lower % 16;
    }
    Some(bytes)
}

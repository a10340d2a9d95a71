// What is judged of a frame received (manual 8.2), by the registers: its parity, its checksum, and how many of its bytes pass.

#![tactic(auto)]

mod checksum;
mod parity;

pub use checksum::{crc_fails, passed_length};
pub use parity::parity_fails;

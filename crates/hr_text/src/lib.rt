//! What several crates do with texts, said once: cutting at a byte, lower-case hexadecimal, decimal
//! numbers, and the bytes that JSON escapes. Start with `cutting`.
#![tactic(auto)]

mod cutting;
mod escaping;
mod hexadecimal;
mod number;
#[cfg(test)]
mod tests;

pub use cutting::cut;
pub use escaping::is_unescaped;
pub use hexadecimal::{is_hexadecimal, read_hex, read_hex_to};
pub use number::read_number;

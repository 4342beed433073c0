//! Worked examples of keys, ciphertexts and switches.
mod key;
mod switch;

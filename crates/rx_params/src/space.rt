// What a block of a message space holds: how many numbers, and how much noise.
ghost use Rattle.std.specs.Prelude.{◌≡◌, ◌≤◌, ◌⊎◌};
ghost use Rattle.rx_laws.specs.Decode.{plaintexts};
ghost use Rattle.rx_params.specs.Derived.{noise_limit};

/// How many numbers a block can hold, its carry with them: 16 for 2 message bits, 64 for 3. A table that is
/// looked up has as many entries.
pub fn plaintexts(message_bits: u32) -> u8
    requires { (message_bits ≡ 2) ⊎ (message_bits ≡ 3) }
    ensures value { result ≡ plaintexts message_bits }
    ensures high { result ≤ 64 }
{
    4u8.pow(message_bits)
}

/// The greatest noise tag of a block, and the greatest sum of noise tags that a lookup may be given: 5 for 2
/// message bits, 9 for 3.
pub fn noise_limit(message_bits: u32) -> u8
    requires { (message_bits ≡ 2) ⊎ (message_bits ≡ 3) }
    ensures value { result ≡ noise_limit message_bits }
    ensures few { result ≤ 9 }
{
    2u8.pow(message_bits) + 1
}

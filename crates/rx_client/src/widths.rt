//! Whether the blocks of a set make up the bits of value lines.
ghost use Rattle.std.specs.Prelude.{◌≡◌, ◌⊎◌, ◌<◌};
ghost use Rattle.std.specs.Option.{option_copied};
ghost use Rattle.rx_client.specs.Encrypt.{has_width as has_width_of, first_width};

use rx_circuit::ValueLine;
use rx_params::Kind;

/// The first line whose bits are no multiple of the message bits, of which there are 2 or 3.
pub fn wrong_width_in(message_bits: u32, lines: &[ValueLine]) -> Option<&ValueLine>
    requires { (message_bits ≡ 2) ⊎ (message_bits ≡ 3) }
    ensures { option_copied result ≡ first_width message_bits lines.now }
{
    for line in lines {
        if !has_width(message_bits, line) {
            return Some(line);
        }
    }
    None
}

/// Whether blocks of some message bits make up the bits of a line.
fn has_width(message_bits: u32, line: &ValueLine) -> bool
    requires { 0 < message_bits }
    ensures { result ≡ has_width_of message_bits line.now }
{
    match line.kind {
        Kind::Int => line.bits % message_bits == 0,
        Kind::Bit => true,
    }
}

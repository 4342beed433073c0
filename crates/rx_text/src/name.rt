//! A name, held in a fixed array.
ghost use Rattle.std.specs.Prelude.{◌≡◌, ◌↔◌, ◌≤◌, IsTrue, length};
ghost use Rattle.std.specs.List.{list_all};
ghost use Rattle.rx_text.specs.Names.{is_letter, is_name_byte, is_name, name_of};

use std::marker::Model;

/// A name of 1 to 32 bytes: a letter from `a` to `z`, and then such letters, digits or `_`. The bytes past its length
/// are 0.
#[derive(Clone, Copy, Debug)]
pub struct Name {
    bytes: [u8; 32],
    len: usize,
}

impl Model for Name {
    ghost use Rattle.std.specs.Prelude.{List, ℕ, ◌-◌, ◌++◌, length, take, replicate};
    ghost use Rattle.std.proofs.Common.{arith, sym, ap, ◌∙◌, length-take-le};

    ghost Value = { List ℕ };

    ghost use Rattle.rx_text.specs.NameFields.{IsHeldName};

    ghost view = { λ n. take n.len n.bytes };

    ghost invariant = { IsHeldName };

    ghost inverse = { λ text. record {
      bytes = text
          ++ replicate (32 - length text) 0;
      len = length text;
    } };

    ghost inverse_ok = { λ n h i. record {
      bytes = (ap (λ len. take n.len n.bytes ++ replicate (32 - len) 0)
          (length-take-le n.len n.bytes (omega (arith, h.fits, h.whole))) ∙ sym h.padded) i;
      len = length-take-le n.len n.bytes (omega (arith, h.fits, h.whole)) i;
    } };
}

impl PartialEq for Name {
    ghost use Rattle.std.specs.Str.{bytes_eq};
    ghost use Rattle.std.specs.Cmp.{partial_equiv_from_equiv};
    ghost use Rattle.std.specs.Cmp.Lexicographic.{nat_list_eq_equiv};

    ghost eq = { bytes_eq };

    ghost laws = { partial_equiv_from_equiv nat_list_eq_equiv };

    fn eq(&self, other: &Name) -> bool
        ensures value { result ≡ bytes_eq self.now other.now }
        ensures same { IsTrue result ↔ (self.now ≡ other.now) }
    {
        self.as_bytes() == other.as_bytes()
    }
}

impl Eq for Name {
    ghost use Rattle.std.specs.Cmp.Lexicographic.{nat_list_eq_equiv};

    ghost laws = { nat_list_eq_equiv };
}

impl Name {
    /// The name that a text is. None exactly where the text is no name.
    pub fn of(text: &[u8]) -> Option<Name>
        ensures { result ≡ name_of text.now }
    {
        if !is_name_text(text) {
            return None;
        }
        let mut bytes = [0u8; 32];
        bytes[..text.len()].copy_from_slice(text);
        Some(Name {
            bytes,
            len: text.len(),
        })
    }

    /// The name as text.
    pub fn as_str(&self) -> &str
        ensures value { result.now ≡ self.now }
        ensures name { IsTrue (is_name self.now) }
    {
        match str::from_utf8(&self.bytes[..self.len]) {
            Ok(text) => text,
            Err(_) => unreachable!(),
        }
    }

    /// The bytes of the name.
    pub fn as_bytes(&self) -> &[u8]
        ensures value { result.now ≡ self.now }
        ensures name { IsTrue (is_name self.now) }
    {
        &self.bytes[..self.len]
    }
}

fn is_name_text(text: &[u8]) -> bool
    ensures value { result ≡ is_name text.now }
    ensures short { IsTrue result → length text.now ≤ 32 }
{
    match text.split_first() {
        Some((first, others)) => is_small_letter(*first) && are_parts(others) && text.len() <= 32,
        None => false,
    }
}

fn are_parts(bytes: &[u8]) -> bool
    ensures { result ≡ list_all is_name_byte bytes.now }
{
    bytes.iter().all(|c| is_part(*c))
}

fn is_small_letter(c: u8) -> bool
    ensures { result ≡ is_letter c }
{
    c.is_ascii_lowercase()
}

fn is_part(c: u8) -> bool
    ensures { result ≡ is_name_byte c }
{
    is_small_letter(c) || c.is_ascii_digit() || c == b'_'
}

//! A list of values, which contracts see as the list of what they see of each.
#![tactic(auto)]

ghost use Rattle.std.specs.Prelude.{◌≡◌, [], ◌∷◌, ◌++◌, OnOk, OnErr};
ghost use Rattle.std.specs.Borrow.{Lends, Array, sem};
ghost use Rattle.rx_list.specs.contracts.Listed.{the_row};
ghost use Rattle.rx_list.specs.Overwritten.{overwritten};

use std::alloc::AllocError;
use std::marker::Model;

#[cfg(test)]
mod tests;

/// Any number of values, in order. It is made from a `Vec` and gives it back, both without a copy.
#[derive(Debug, Drop)]
pub struct Listed<T> {
    items: Vec<T>,
}

impl<T> Model for Listed<T> {
    ghost use Rattle.std.specs.Prelude.{List};

    ghost Value = { List T };

    ghost view = { λ l. l.items.items };
}

impl<T> Listed<T> {
    /// These values, without a copy.
    pub fn from_vec(items: Vec<T>) -> Listed<T>
        ensures { result ≡ items.items }
    {
        Listed { items }
    }

    /// The values, without a copy.
    pub fn into_vec(self) -> Vec<T>
        ensures { result.items ≡ self }
    {
        let Listed { items } = self;
        items
    }

    /// The values, lent.
    pub fn as_slice(&self) -> &[T]
        ensures { result.now ≡ self.now }
    {
        self.items.as_slice()
    }

    /// The values, to be written in place. They stay as many.
    pub fn as_mut_slice(&mut self) -> &mut [T]
        ensures* writes { sem 𝓛 (Lends (the_row T.row) (Array T.row 0) self.entry result
            (overwritten self.old)) }
        ensures value { result.now ≡ self.old }
    {
        self.items.as_mut_slice()
    }
}

impl<T: Drop> Listed<T> {
    /// Adds one at the end; where memory is wanted, nothing is added.
    pub fn push(&mut self, item: T) -> Result<(), AllocError>
        ensures ok { OnOk result (self.new ≡ self.old ++ item ∷ []) }
        ensures err { OnErr result (self.new ≡ self.old) }
    {
        self.items.push(item)?;
        Ok(())
    }
}

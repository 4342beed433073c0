//! A net of forty jobs of many forms, over any space.
ghost use Rattle.std.specs.Prelude.{◌≡◌, ◌⊎◌, IfOk};
ghost use Rattle.rx_net.specs.Named.{IsNet};

use crate::tables::{Look, table};
use rx_net::{Net, NetInput, NetPen};
use rx_params::Kind;
use rx_tests_kit::{name, number, term};
use std::alloc::Global;
use std::test::Fail;

/// A net under construction, and its cells that hold at most the message bits.
#[derive(Drop)]
struct Mixture {
    alloc: Global,
    pen: NetPen,
    narrow: Vec<u32>,
}

impl Mixture {
    /// One of the narrow cells; they are counted round and round.
    fn cell(&self, number: usize) -> u32 {
        match number.checked_rem(self.narrow.len()) {
            Some(place) => self.narrow[place],
            None => 0,
        }
    }

    /// Adds a job, and answers its cell.
    fn job(&mut self, terms: &[(u32, i8)], constant: i16, look: Look) -> Result<u32, Fail> {
        let mut list = Vec::new(self.alloc);
        for (cell, weight) in terms {
            list.push(term(*cell, *weight))?;
        }
        let table = table(self.alloc, self.pen.space(), look)?;
        Ok(self.pen.job(&list, constant, &table)?)
    }

    /// Adds a job whose cell holds at most the message bits.
    fn narrow_job(&mut self, terms: &[(u32, i8)], constant: i16, look: Look) -> Result<(), Fail> {
        let cell = self.job(terms, constant, look)?;
        self.narrow.push(cell)?;
        Ok(())
    }

    /// Adds ten jobs: sums of two and of three cells, of one cell twice and of none, with weights from -2 to 3 and
    /// constants, looked up in all four tables.
    fn ten_jobs(&mut self, round: u8) -> Result<(), Fail> {
        let top: i16 = if self.pen.space() == 2 { 3 } else { 7 };
        let place = usize::from(round);
        let (x, y, z) = (
            self.cell(7 * place + 1),
            self.cell(5 * place + 2),
            self.cell(3 * place),
        );
        self.narrow_job(&[(x, 1), (y, 1)], 0, Look::Rest)?;
        self.narrow_job(&[(x, 1), (y, 1)], 0, Look::Carry)?;
        self.narrow_job(&[(x, 2), (z, 3)], 0, Look::Rest)?;
        self.narrow_job(&[(x, -2), (y, 3)], 2 * top, Look::Carry)?;
        self.narrow_job(&[(z, -1)], top, Look::Same)?;
        self.narrow_job(&[(x, 1), (y, -1)], top, Look::Back)?;
        self.narrow_job(&[(z, 1), (z, 1), (x, 0)], 1, Look::Carry)?;
        self.narrow_job(&[], i16::from(round), Look::Same)?;
        let wide = self.job(&[(x, 1), (y, 1), (z, 1)], 0, Look::Same)?;
        self.narrow_job(&[(wide, 1)], 2, Look::Back)
    }
}

/// A net of three numbers and forty jobs. All cells that hold at most the message bits are given as outputs, up to
/// eight in one number.
pub fn mixed_net(alloc: Global, space: u32) -> Result<Net, Fail>
    requires { (space ≡ 2) ⊎ (space ≡ 3) }
    ensures { IfOk result IsNet }
{
    let mut mixture = Mixture {
        alloc,
        pen: NetPen::new(alloc, space),
        narrow: Vec::new(alloc),
    };
    mixture.pen.input(number("a", space, 2 * space)?)?;
    mixture.pen.input(number("b", space, 2 * space)?)?;
    mixture.pen.input(NetInput {
        name: name("c")?,
        kind: Kind::Bit,
        bits: 1,
        degree: 1,
        noise: 1,
    })?;
    for cell in 0..mixture.pen.cells() {
        mixture.narrow.push(cell)?;
    }
    for round in 0..4 {
        mixture.ten_jobs(round)?;
    }
    let Mixture {
        mut pen,
        narrow,
        ..
    } = mixture;
    for (place, cells) in narrow.chunks(8).enumerate() {
        let text = format!(in alloc; "o{place}")?;
        pen.output(
            name(text.as_str())?,
            Kind::Int,
            u32::try_from(cells.len())?.saturating_mul(space),
            cells,
        )?;
    }
    Ok(pen.finish())
}

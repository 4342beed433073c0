//! Where two sets differ.
ghost use Rattle.std.specs.Prelude.{◌≡◌, ◌==◌, if◌then◌else◌, Some, None};
ghost use Rattle.rx_report.specs.Reports.{difference_of};

use rx_params::Params;

/// A field that differs between two sets.
#[derive(Clone, Copy, Debug, PartialEq, Eq)]
pub struct Difference {
    /// The place of the field, 1 to 10, in the order of a parameter text.
    pub field: u32,
    /// Its value in the first set.
    pub first: u32,
    /// Its value in the other set.
    pub other: u32,
}

/// The first of the ten fields that differs, None where the sets are equal.
pub fn first_difference(first: &Params, other: &Params) -> Option<Difference>
    ensures { result ≡ difference_of first.now other.now }
{
    at_field(1, first.message_bits, other.message_bits)
        .or_else(|| at_field(2, first.glwe_dim, other.glwe_dim))
        .or_else(|| at_field(3, first.poly_size, other.poly_size))
        .or_else(|| at_field(4, first.lwe_dim, other.lwe_dim))
        .or_else(|| at_field(5, first.pbs_base_log, other.pbs_base_log))
        .or_else(|| at_field(6, first.pbs_level, other.pbs_level))
        .or_else(|| at_field(7, first.ks_base_log, other.ks_base_log))
        .or_else(|| at_field(8, first.ks_level, other.ks_level))
        .or_else(|| at_field(9, first.glwe_bound, other.glwe_bound))
        .or_else(|| at_field(10, first.lwe_bound, other.lwe_bound))
}

/// The difference at one field.
fn at_field(field: u32, first: u32, other: u32) -> Option<Difference>
    ensures { result ≡ (if first == other then None else Some
        (record { field = field; first = first; other = other })) }
{
    if first == other {
        None
    } else {
        Some(Difference {
            field,
            first,
            other,
        })
    }
}

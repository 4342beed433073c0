//! The ten parameter fields of a file.
ghost use Rattle.std.specs.Prelude.{◌≡◌, ◌++◌, OnOk, IfOk};
ghost use Rattle.rx_codec.specs.Reading.{GivesExactlyAt};
ghost use Rattle.rx_params.specs.Acceptance.{Accepts};
ghost use Rattle.rx_codec.specs.ParamsFields.{params_bytes, fields_at, params_at};

use crate::CodecFault;
use crate::reader::Reader;
use crate::writer::write_numbers;
use rx_params::{Params, check};
use std::alloc::AllocError;

/// The ten fields that stand where the reader is, whatever their values are.
#[tactic(auto, unfolding(crate::specs::ParamsFields::fields_at))]
pub fn read_fields(reader: &mut Reader) -> Result<Params, CodecFault>
    ensures value { GivesExactlyAt (λ p. p) reader.new.at result
        (fields_at reader.old.file reader.old.at) }
    ensures file { reader.new.file ≡ reader.old.file }
{
    Ok(Params {
        message_bits: reader.u32()?,
        glwe_dim: reader.u32()?,
        poly_size: reader.u32()?,
        lwe_dim: reader.u32()?,
        pbs_base_log: reader.u32()?,
        pbs_level: reader.u32()?,
        ks_base_log: reader.u32()?,
        ks_level: reader.u32()?,
        glwe_bound: reader.u32()?,
        lwe_bound: reader.u32()?,
    })
}

/// The set that stands where the reader is, once all ten fields were read.
#[tactic(auto, unfolding(crate::specs::ParamsFields::params_at))]
pub fn read_params(reader: &mut Reader) -> Result<Params, CodecFault>
    ensures value { GivesExactlyAt (λ p. p) reader.new.at result
        (params_at reader.old.file reader.old.at) }
    ensures file { reader.new.file ≡ reader.old.file }
    ensures accepted { IfOk result Accepts }
{
    let params = read_fields(reader)?;
    match check(&params) {
        Ok(_) => Ok(params),
        Err(refused) => Err(CodecFault::Params(refused)),
    }
}

/// Adds the ten fields of a set, four bytes each.
pub fn write_params(out: &mut Vec<u8>, p: &Params) -> Result<(), AllocError>
    ensures { OnOk result (out.new.items ≡ out.old.items ++ params_bytes p.now) }
{
    write_numbers(
        out,
        &[
            p.message_bits,
            p.glwe_dim,
            p.poly_size,
            p.lwe_dim,
            p.pbs_base_log,
            p.pbs_level,
            p.ks_base_log,
            p.ks_level,
            p.glwe_bound,
            p.lwe_bound,
        ],
    )
}

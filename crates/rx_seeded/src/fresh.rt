//! The seeded server file of a client's key, written as its rows are made: each row is made in the same room, and its
//! body goes into the file at once. So the words of the whole key are never held.
ghost use Rattle.std.specs.Prelude.{◌≡◌, ◌++◌, ◌*◌, ◌+◌, ◌<◌, IfOk, OnOk, drop, length};
ghost use Rattle.rx_params.specs.Acceptance.{Accepts};
ghost use Rattle.rx_params.specs.Derived.{large_dim};
ghost use Rattle.rx_lwe.specs.Secret.{large_key, small_key};
ghost use Rattle.rx_lwe.specs.Seeded.{switch_row_count};
ghost use Rattle.rx_boot.specs.BootKeys.{boot_row_count};
ghost use Rattle.rx_boot.specs.ServerKeys.{IsServerKey, server_key};
ghost use Rattle.rx_boot.specs.FreshRows.{fresh_boot_bodies, fresh_boot_row, fresh_switch_bodies, fresh_switch_row};
ghost use Rattle.rx_codec.specs.WordFields.{word_bytes};
ghost use Rattle.rx_seeded.specs.SeededServer.{SeededServer};

use crate::fits::seed_fits;
use crate::server::seeded_head;
use rx_boot::{FreshRows, seeded_key_laws, server_key_laws};
use rx_codec::write_words;
use rx_params::Params;
use std::alloc::{AllocError, Global};

/// The seeded server file of the key that a client's seed and a mask seed make under an accepted set; the key is a server
/// key of the client's secret. The error is want of memory.
pub fn encode_fresh_server(
    alloc: Global,
    p: &Params,
    client_seed: &[u8; 32],
    mask_seed: &[u8; 32],
) -> Result<Vec<u8>, AllocError>
    requires { Accepts p.now }
    ensures file { IfOk result (λ bytes. SeededServer bytes.items mask_seed.now
        (server_key p.now client_seed.now mask_seed.now)) }
    ensures near { IfOk result (λ _. IsServerKey
        (small_key p.now client_seed.now)
        (large_key p.now client_seed.now)
        (server_key p.now client_seed.now mask_seed.now)) }
{
    seed_fits(mask_seed);
    server_key_laws();
    seeded_key_laws();
    let rows = FreshRows::new(alloc, p, client_seed, mask_seed)?;
    let mut out = seeded_head(alloc, p, mask_seed)?;
    add_boot_bodies(alloc, &rows, &mut out)?;
    add_switch_bodies(alloc, &rows, &mut out)?;
    Ok(out)
}

/// Adds the bodies of the bootstrapping rows, in order.
fn add_boot_bodies(alloc: Global, rows: &FreshRows, out: &mut Vec<u8>) -> Result<(), AllocError>
    ensures { OnOk result (out.new.items ≡ out.old.items
        ++ word_bytes (fresh_boot_bodies rows.now (boot_row_count rows.now.params))) }
{
    let p = rows.params();
    let n = p.poly_size as usize;
    let mut scratch = vec![in alloc; 0; 4 * n]?;
    let mut row = vec![in alloc; 0; (p.glwe_dim as usize + 1) * n]?;
    make_boot_bodies(rows, &mut scratch, &mut row, out)
}

/// The same, in room for four polynomials and for a row.
fn make_boot_bodies(
    rows: &FreshRows,
    scratch: &mut [u64],
    row: &mut [u64],
    out: &mut Vec<u8>,
) -> Result<(), AllocError>
    requires scratch { length scratch.old ≡ 4 * rows.now.params.poly_size }
    requires row { length row.old
        ≡ (rows.now.params.glwe_dim + 1) * rows.now.params.poly_size }
    ensures { OnOk result (out.new.items ≡ out.old.items
        ++ word_bytes (fresh_boot_bodies rows.now (boot_row_count rows.now.params))) }
{
    let p = rows.params();
    for number in 0..p.lwe_dim * ((p.glwe_dim + 1) * p.pbs_level) {
        add_boot_body(rows, number, scratch, row, out)?;
    }
    Ok(())
}

/// Adds the body of one of them.
fn add_boot_body(
    rows: &FreshRows,
    number: u32,
    scratch: &mut [u64],
    row: &mut [u64],
    out: &mut Vec<u8>,
) -> Result<(), AllocError>
    requires place { number < boot_row_count rows.now.params }
    requires scratch { length scratch.old ≡ 4 * rows.now.params.poly_size }
    requires row { length row.old
        ≡ (rows.now.params.glwe_dim + 1) * rows.now.params.poly_size }
    ensures { OnOk result (out.new.items ≡ out.old.items
        ++ word_bytes (drop (large_dim rows.now.params) (fresh_boot_row rows.now number))) }
{
    let masks = rows.params().large_dim() as usize;
    rows.boot_row_into(number, scratch, row);
    write_words(out, &row[masks..])
}

/// Adds the bodies of the switch rows, in order.
fn add_switch_bodies(alloc: Global, rows: &FreshRows, out: &mut Vec<u8>) -> Result<(), AllocError>
    ensures { OnOk result (out.new.items ≡ out.old.items
        ++ word_bytes (fresh_switch_bodies rows.now (switch_row_count rows.now.params))) }
{
    let p = rows.params();
    let mut row = vec![in alloc; 0; p.lwe_dim as usize + 1]?;
    make_switch_bodies(rows, &mut row, out)
}

/// The same, in room for a row.
fn make_switch_bodies(
    rows: &FreshRows,
    row: &mut [u64],
    out: &mut Vec<u8>,
) -> Result<(), AllocError>
    requires { length row.old ≡ rows.now.params.lwe_dim + 1 }
    ensures { OnOk result (out.new.items ≡ out.old.items
        ++ word_bytes (fresh_switch_bodies rows.now (switch_row_count rows.now.params))) }
{
    let p = rows.params();
    for number in 0..p.large_dim() * p.ks_level {
        add_switch_body(rows, number, row, out)?;
    }
    Ok(())
}

/// Adds the body of one of them.
fn add_switch_body(
    rows: &FreshRows,
    number: u32,
    row: &mut [u64],
    out: &mut Vec<u8>,
) -> Result<(), AllocError>
    requires place { number < switch_row_count rows.now.params }
    requires row { length row.old ≡ rows.now.params.lwe_dim + 1 }
    ensures { OnOk result (out.new.items ≡ out.old.items
        ++ word_bytes (drop rows.now.params.lwe_dim (fresh_switch_row rows.now number))) }
{
    let masks = rows.params().lwe_dim as usize;
    rows.switch_row_into(number, row);
    write_words(out, &row[masks..])
}

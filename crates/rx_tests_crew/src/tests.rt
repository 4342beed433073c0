//! Runs of small nets.
ghost use Rattle.std.specs.Prelude.{◌≡◌, ℕ, ◌+◌, ◌<◌, ◌≤◌, [], IfOk, length};
ghost use Rattle.rx_params.specs.declared.kind.Kind.TheVariants.{Int};
ghost use Rattle.rx_params.specs.Acceptance.{FieldsInRange};
ghost use Rattle.rx_net.specs.Cells.{input_cells, cell_count, degree, noise};
ghost use Rattle.rx_net.specs.Legal.{Legal};

use rx_block::{Block, decrypt_block, fresh_block};
use rx_boot::ServerKey;
use rx_crew::{OpenGate, run_net};
use rx_lwe::SecretKey;
use rx_net::{Net, NetInput, NetPen, Term};
use rx_params::{Kind, Name, Params, named};
use std::alloc::{AllocError, Global};
use std::test::Fail;

const SEED: [u8; 32] = [7; 32];

const CARRY: [u8; 16] = [0, 0, 0, 0, 1, 1, 1, 1, 2, 2, 2, 2, 3, 3, 3, 3];

const REST: [u8; 16] = [0, 1, 2, 3, 0, 1, 2, 3, 0, 1, 2, 3, 0, 1, 2, 3];

fn name(text: &[u8]) -> Result<Name, Fail> {
    Ok(Name::of(text).ok_or("a name")?)
}

/// A number of one block.
fn number(text: &[u8]) -> Result<NetInput, Fail>
    ensures form { IfOk result (λ input. (input.kind ≡ Int) × (input.bits ≡ 2)) }
    ensures tags { IfOk result (λ input. (input.degree ≡ 3) × (input.noise ≡ 1)) }
{
    Ok(NetInput {
        name: name(text)?,
        kind: Kind::Int,
        bits: 2,
        degree: 3,
        noise: 1,
    })
}

fn term(cell: u32, weight: i8) -> Term {
    Term { cell, weight }
}

/// A pen with two numbers `a` and `b`, the cells 0 and 1.
fn two_numbers(alloc: Global) -> Result<NetPen, Fail>
    ensures space { IfOk result (λ pen. pen.space ≡ 2) }
    ensures inputs { IfOk result (λ pen. input_cells pen.space pen.inputs ≡ 2) }
    ensures jobs { IfOk result (λ pen. pen.jobs ≡ []) }
    ensures cells { IfOk result (λ pen. cell_count pen ≡ 2) }
    ensures tags { IfOk result (λ pen. (c : ℕ) → c < 2 → (3 ≤ degree pen c) × (1 ≤ noise pen c)) }
{
    let mut pen = NetPen::new(alloc, 2);
    pen.input(number(b"a")?)?;
    pen.input(number(b"b")?)?;
    Ok(pen)
}

/// The net of `c`, a fourth of `2 * a - b + 3`, and of `d`, what `3 * c + a` leaves beside its fourth. It gives both,
/// `d` first, and then `a`.
fn two_jobs(alloc: Global) -> Result<Net, Fail>
    ensures legal { IfOk result Legal }
    ensures space { IfOk result (λ net. net.space ≡ 2) }
    ensures inputs { IfOk result (λ net. input_cells net.space net.inputs ≡ 2) }
    ensures tags { IfOk result (λ net. (c : ℕ) → c < 2 → (3 ≤ degree net c) × (1 ≤ noise net c)) }
    ensures jobs { IfOk result (λ net. length net.jobs ≡ 2) }
{
    let mut pen = two_numbers(alloc)?;
    let c = pen.job(&[term(0, 2), term(1, -1)], 3, &CARRY)?;
    let d = pen.job(&[term(c, 3), term(0, 1)], 0, &REST)?;
    pen.output(name(b"x")?, Kind::Int, 4, &[d, c])?;
    pen.output(name(b"y")?, Kind::Int, 2, &[0])?;
    Ok(pen.finish())
}

/// The block of a value below 4.
#[tactic(auto, unfolding(rx_block::specs::Fresh::fresh))]
fn block(
    alloc: Global,
    p: &Params,
    secret: &SecretKey,
    number: u32,
    value: u8,
) -> Result<Block, AllocError>
    requires fields { FieldsInRange p.now }
    requires message_bits { p.now.message_bits ≡ 2 }
    requires value { value < 4 }
    ensures tags { IfOk result (λ block. (block.degree ≡ 3) × (block.noise ≡ 1)) }
    ensures size { IfOk result (λ block. length block.words ≡ length secret.now + 1) }
{
    fresh_block(
        alloc,
        p,
        secret,
        &[2; 32],
        &[3; 32],
        number,
        Kind::Int,
        value,
    )
}

#[test]
fn two_jobs_are_run(rt: HostRuntime) -> Result<(), Fail> {
    let alloc = rt.alloc();
    let Some(set) = named("rx-test") else {
        panic!(rt; "a set of that name");
    };
    let key = ServerKey::make(alloc, &set, &SEED, &[8; 32])?;
    let p = &key.params;
    assert_eq!(rt; p.message_bits, 2);
    let secret = SecretKey::large(alloc, p, &SEED)?;
    assert_eq!(rt; secret.bits().len(), 256);
    let net = two_jobs(alloc)?;
    let inputs = [
        block(alloc, p, &secret, 0, 3)?,
        block(alloc, p, &secret, 1, 2)?,
    ];
    let report = run_net(&rt, alloc, &net, &key, &inputs, 1, &OpenGate)?;
    assert_eq!(rt; (report.ran, report.finished), (2, 0));
    assert_eq!(rt; report.outputs.len(), 3);
    for (block, (value, degree)) in report.outputs.iter().zip([(2, 3), (1, 2), (3, 3)]) {
        assert_eq!(rt; block.words.as_slice().len(), 257);
        assert_eq!(rt; decrypt_block(p, &secret, block), Ok(value));
        assert_eq!(rt; (block.degree, block.noise), (degree, 1));
    }
    Ok(())
}

#[test]
fn nothing_is_run(rt: HostRuntime) -> Result<(), Fail> {
    let alloc = rt.alloc();
    let Some(set) = named("rx-test") else {
        panic!(rt; "a set of that name");
    };
    let key = ServerKey::make(alloc, &set, &SEED, &[8; 32])?;
    assert_eq!(rt; key.params.message_bits, 2);
    let net = NetPen::new(alloc, 2).finish();
    let report = run_net(&rt, alloc, &net, &key, &[], 64, &OpenGate)?;
    assert_eq!(rt; (report.ran, report.finished), (0, 0));
    assert_eq!(rt; report.outputs.len(), 0);
    Ok(())
}

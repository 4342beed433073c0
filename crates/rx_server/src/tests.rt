//! Inputs found in files and outputs made of blocks, with each way in which an input can be wrong.
use crate::{GatherError, InputFault, gather_inputs, output_items};
use rx_block::Block;
use rx_codec::{Blocks, Cipher, Item, Items};
use rx_net::{Cells, NetInput, NetOutput};
use rx_params::{Kind, Name, Params, named};
use rx_torus::Words;
use std::alloc::Global;
use std::process::Abort;
use std::test::Fail;

fn name(rt: &impl Abort, text: &str) -> Name {
    let Some(name) = Name::of(text.as_bytes()) else {
        panic!(rt; "a name");
    };
    name
}

/// An input of four bits in two blocks.
fn input(name: Name) -> NetInput {
    NetInput {
        name,
        kind: Kind::Int,
        bits: 4,
        degree: 3,
        noise: 1,
    }
}

/// A block of one word.
fn block(alloc: Global, word: u64, degree: u8, noise: u8) -> Result<Block, Fail> {
    Ok(Block {
        words: Words::from_vec(vec![in alloc; word]?),
        degree,
        noise,
    })
}

/// An item of two blocks, which hold the word and the word after it. The tags are those of the second.
fn item(alloc: Global, name: Name, word: u32, degree: u8, noise: u8) -> Result<Item, Fail> {
    let first = block(alloc, u64::from(word), 3, 1)?;
    let second = block(alloc, u64::from(word) + 1, degree, noise)?;
    Ok(Item {
        name,
        kind: Kind::Int,
        bits: 4,
        blocks: Blocks::from_vec(vec![in alloc; first, second]?),
    })
}

fn cipher(alloc: Global, params: Params, item: Item) -> Result<Cipher, Fail> {
    Ok(Cipher {
        params,
        items: Items::from_vec(vec![in alloc; item]?),
    })
}

#[test]
fn inputs_are_found_in_the_order_of_the_net(rt: HostRuntime) -> Result<(), Fail> {
    let alloc = rt.alloc();
    let Some(p) = named("rx-test") else {
        panic!(rt; "a set of that name");
    };
    let (a, b) = (name(&rt, "a"), name(&rt, "b"));
    let files = [
        cipher(alloc, p, item(alloc, b, 20, 3, 1)?)?,
        cipher(alloc, p, item(alloc, a, 10, 2, 1)?)?,
    ];
    let inputs = [input(a), input(b)];
    let mut words = Vec::new(alloc);
    for block in gather_inputs(alloc, &inputs, &files)? {
        words.extend_from_slice(block.words.as_slice())?;
    }
    assert_eq!(rt; words.as_slice(), [10, 11, 20, 21].as_slice());
    Ok(())
}

/// Two files with an item `a`, and between them one with an item `b` whose greatest degree is 4 and noise tag 2.
fn three_files(rt: &impl Abort, alloc: Global) -> Result<[Cipher; 3], Fail> {
    let Some(p) = named("rx-test") else {
        panic!(rt; "a set of that name");
    };
    let (a, b) = (name(rt, "a"), name(rt, "b"));
    Ok([
        cipher(alloc, p, item(alloc, a, 10, 3, 1)?)?,
        cipher(alloc, p, item(alloc, b, 20, 4, 2)?)?,
        cipher(alloc, p, item(alloc, a, 30, 3, 1)?)?,
    ])
}

/// What is wrong with the first of some inputs that the files do not give.
fn fault_of(
    rt: &impl Abort,
    alloc: Global,
    inputs: &[NetInput],
    files: &[Cipher],
) -> Result<InputFault, Fail> {
    match gather_inputs(alloc, inputs, files) {
        Ok(_) => panic!(rt; "a fault"),
        Err(GatherError::Input(fault)) => Ok(fault),
        Err(memory) => Err(memory.into()),
    }
}

#[test]
fn an_input_is_missing_or_stands_twice(rt: HostRuntime) -> Result<(), Fail> {
    let alloc = rt.alloc();
    let files = three_files(&rt, alloc)?;
    let (a, b, c) = (name(&rt, "a"), name(&rt, "b"), name(&rt, "c"));
    let missing = fault_of(&rt, alloc, &[input(c)], &files)?;
    assert!(rt; matches!(missing, InputFault::Missing(_)));
    let twice = fault_of(&rt, alloc, &[input(a), input(b)], &files)?;
    assert!(rt; matches!(twice, InputFault::Twice(_)));
    Ok(())
}

#[test]
fn an_input_has_other_bits_or_another_kind(rt: HostRuntime) -> Result<(), Fail> {
    let alloc = rt.alloc();
    let files = three_files(&rt, alloc)?;
    let b = input(name(&rt, "b"));
    let other_bits = NetInput { bits: 6, ..b };
    let bits = fault_of(&rt, alloc, &[other_bits], &files)?;
    assert!(rt; matches!(bits, InputFault::Form(_)));
    let other_kind = NetInput {
        kind: Kind::Bit,
        ..b
    };
    let kind = fault_of(&rt, alloc, &[other_kind], &files)?;
    assert!(rt; matches!(kind, InputFault::Form(_)));
    Ok(())
}

#[test]
fn an_input_has_a_greater_degree_or_noise_tag(rt: HostRuntime) -> Result<(), Fail> {
    let alloc = rt.alloc();
    let files = three_files(&rt, alloc)?;
    let b = input(name(&rt, "b"));
    let degree = fault_of(&rt, alloc, &[b], &files)?;
    assert!(rt;
        matches!(
            degree,
            InputFault::Degree {
                value: 4,
                limit: 3,
                ..
            }
        )
    );
    let noise = fault_of(&rt, alloc, &[NetInput { degree: 4, ..b }], &files)?;
    assert!(rt;
        matches!(
            noise,
            InputFault::Noise {
                value: 2,
                limit: 1,
                ..
            }
        )
    );
    Ok(())
}

#[test]
fn outputs_share_out_their_blocks(rt: HostRuntime) -> Result<(), Fail> {
    let alloc = rt.alloc();
    let blocks = vec![in alloc;
        block(alloc, 7, 1, 1)?,
        block(alloc, 8, 3, 1)?,
        block(alloc, 9, 3, 1)?,
    ]?;
    let outputs = [
        NetOutput {
            name: name(&rt, "bit"),
            kind: Kind::Bit,
            bits: 1,
            cells: Cells::from_vec(vec![in alloc; 5]?),
        },
        NetOutput {
            name: name(&rt, "int"),
            kind: Kind::Int,
            bits: 4,
            cells: Cells::from_vec(vec![in alloc; 6, 0]?),
        },
    ];
    let items = output_items(alloc, &outputs, Blocks::from_vec(blocks))?.into_vec();
    assert_eq!(rt; items.len(), 2);
    assert_eq!(rt; items[0].name.as_str(), "bit");
    assert_eq!(rt; items[0].blocks.as_slice().len(), 1);
    assert_eq!(rt; items[1].bits, 4);
    let own = items[1].blocks.as_slice();
    assert_eq!(rt; own.len(), 2);
    assert_eq!(rt; own[0].words.as_slice(), [8].as_slice());
    assert_eq!(rt; own[1].words.as_slice(), [9].as_slice());
    Ok(())
}

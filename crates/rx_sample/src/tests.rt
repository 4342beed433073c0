//! The sample of 1.
use super::*;
use std::test::Fail;

#[test]
fn first_sample(rt: HostRuntime) -> Result<(), Fail> {
    let sample = make_sample(rt.alloc(), 1)?;
    assert!(rt; sample.values.as_str().starts_with("int i0 16 47062\n"));
    assert_eq!(rt; sample.values.as_str().lines().count(), 8);
    assert!(rt;
        sample
            .circuit
            .as_str()
            .starts_with("bits 2 16\nin i0\nin i1\n")
    );
    assert!(rt; sample.circuit.as_str().ends_with("out v14\nout v15\n"));
    assert_eq!(rt; sample.circuit.as_str().lines().count(), 33);
    Ok(())
}

//! Circuits that are none: each cause of each form, and the line that is reported.
use crate::tables::CIRCUITS;
use rx_tests_kit::{first_wrong_file, no_files};
use std::alloc::{AllocError, Global};
use std::test::Fail;
use std::thread::Threads;

#[test]
fn circuits_that_are_malformed(rt: HostRuntime) -> Result<(), Fail> {
    let mut store = no_files(rt.alloc());
    store.insert("v", b"")?;
    assert_eq!(rt;
        first_wrong_file(&rt, &mut store, "plain x v", CIRCUITS)?,
        None
    );
    assert_eq!(rt;
        first_wrong_file(&rt, &mut store, "compile x y", CIRCUITS)?,
        None
    );
    assert!(rt; store.get("y").is_none());
    Ok(())
}

/// Lines that are alike but for a number, from 0: what stands before it, and after it.
type Lines<'a> = (u32, &'a str, &'a str);

/// A circuit of lines and more lines, and then another text.
fn text_of(
    alloc: Global,
    lines: Lines<'_>,
    more: Lines<'_>,
    rest: &str,
) -> Result<String, AllocError> {
    let mut text = String::from_str(alloc, "bits 2 2\n")?;
    for (count, before, after) in [lines, more] {
        for place in 0..count {
            write!(text, "{before}{place}{after}\n")?;
        }
    }
    text.push_str(rest)?;
    Ok(text)
}

/// What `plain` gives in place of a report, None where it gives that.
fn given_for<R: Threads + Sync + AllocGlobal>(
    rt: &R,
    text: &str,
    report: &str,
) -> Result<Option<String>, AllocError> {
    let mut store = no_files(rt.alloc());
    store.insert("v", b"")?;
    first_wrong_file(rt, &mut store, "plain x v", &[(text, 5, report)])
}

/// A limit is the last cause of a line, and is reported where the line has no other.
#[test]
fn lines_that_are_too_many(rt: HostRuntime) -> Result<(), Fail> {
    let inputs = (64, "inbit a", "");
    let constants = (65, "const c", " 0");
    let outputs = (65, "out c", "");
    let all = (4095, "const c", " 0");
    let none = (0, "", "");
    let rows = [
        (inputs, none, "in b\n", "malformed x line 66 limit\n"),
        (inputs, none, "ins a0 4\n", "malformed x line 66 again\n"),
        (inputs, none, "ins b 3\n", "malformed x line 66 number\n"),
        (inputs, none, "in b", "malformed x line 66 form\n"),
        (constants, outputs, "", "malformed x line 131 limit\n"),
        (all, none, "const d 0\n", "malformed x line 4097 limit\n"),
        (all, none, "const c0 0\n", "malformed x line 4097 again\n"),
        (all, none, "add d c0 e\n", "malformed x line 4097 unknown\n"),
    ];
    for (lines, more, rest, report) in rows {
        let text = text_of(rt.alloc(), lines, more, rest)?;
        assert_eq!(rt; given_for(&rt, text.as_str(), report)?, None);
    }
    Ok(())
}

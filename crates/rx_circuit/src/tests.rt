//! Value files whose lines or faults are known.
use super::*;
use rx_params::{Kind, LineCause, LineFault};
use std::fmt::Write;
use std::test::Fail;

#[test]
fn one_line_and_no_line(rt: HostRuntime) -> Result<(), Fail> {
    let values = read_values(rt.alloc(), b"int a 8 200\n")?;
    match values.lines() {
        [line] => {
            assert_eq!(rt; line.kind, Kind::Int);
            assert_eq!(rt; line.name.as_str(), "a");
            assert_eq!(rt; line.bits, 8);
            assert_eq!(rt; line.value, 200);
        }
        _ => panic!(rt; "one line"),
    }
    let none = read_values(rt.alloc(), b"")?;
    assert!(rt; none.lines().is_empty());
    Ok(())
}

#[test]
fn first_wrong_line(rt: HostRuntime) {
    let rows: [(&[u8], u32, LineCause); 20] = [
        (b"int a 0 0\n", 1, LineCause::Number),
        (b"int a 65 0\n", 1, LineCause::Number),
        (b"bit a 2 0\n", 1, LineCause::Number),
        (b"bit a 1 2\n", 1, LineCause::Number),
        (b"int a 8 256\n", 1, LineCause::Number),
        (b"int a 64 18446744073709551616\n", 1, LineCause::Number),
        (b"int a 100000000000000000000 0\n", 1, LineCause::Number),
        (b"Int a 8 1\n", 1, LineCause::Form),
        (
            b"int abcdefghijklmnopqrstuvwxyz0123456 8 1\n",
            1,
            LineCause::Form,
        ),
        (b"int a 65 01\n", 1, LineCause::Form),
        (b"int a 8 1 \n", 1, LineCause::Form),
        (b"int  a 8 1\n", 1, LineCause::Form),
        (b"int a 8\n", 1, LineCause::Form),
        (b"int a 8 1\r\n", 1, LineCause::Form),
        (b"\n", 1, LineCause::Form),
        (b"int a 8 1", 1, LineCause::Form),
        (b"int a 8 1\nint b 8 1", 2, LineCause::Form),
        (b"int a 8 1\nbit a 1 1\n", 2, LineCause::Again),
        (b"int a 8 1\nbit a 1 2\n", 2, LineCause::Number),
        (b"int a 8 1\n\nint a 8 1\n", 2, LineCause::Form),
    ];
    for (bytes, line, cause) in rows {
        let fault = LineFault { line, cause };
        assert!(rt;
            matches!(read_values(rt.alloc(), bytes), Err(ParseError::Line(f)) if f == fault)
        );
    }
}

/// So many lines, each of a name of its own, and then another line.
fn text_of(rt: &HostRuntime, count: u32, last: &str) -> Result<String, Fail> {
    let mut text = String::new(rt.alloc());
    for number in 0..count {
        writeln!(text, "int v{number} 64 18446744073709551615")?;
    }
    text.push_str(last)?;
    Ok(text)
}

#[test]
fn line_after_64_lines(rt: HostRuntime) -> Result<(), Fail> {
    let full = text_of(&rt, 64, "")?;
    let values = read_values(rt.alloc(), full.as_bytes())?;
    assert_eq!(rt; values.lines().len(), 64);
    let rows = [
        ("bit b 1 1\n", LineCause::Limit),
        ("bit v0 1 1\n", LineCause::Again),
        ("bit b 1 2\n", LineCause::Number),
        ("bit b 1 1", LineCause::Form),
    ];
    for (last, cause) in rows {
        let text = text_of(&rt, 64, last)?;
        let fault = LineFault { line: 65, cause };
        assert!(rt;
            matches!(read_values(rt.alloc(), text.as_bytes()), Err(ParseError::Line(f)) if f == fault)
        );
    }
    Ok(())
}

//! Texts of circuits whose lines or faults are known.
use super::*;
use rx_params::{LineCause, LineFault};
use std::alloc::Global;
use std::fmt::Write;
use std::process::Abort;
use std::test::Fail;

const SUM: &[u8] = b"bits 2 8\nin a\nin b\nadd s a b\nout s\n";

#[test]
fn text_of_a_circuit_comes_back(rt: HostRuntime) -> Result<(), Fail> {
    let texts: [&[u8]; 4] = [
        SUM,
        b"bits 2 2\n",
        b"bits 3 63\nconstw c 9 511\ncasts d 63 c\nshr e d 255\nout e\nout c\n",
        b"bits 2 8\ninbit c\nins a 4\nins b 4\nselect m c a b\nlt t a b\nxor u t c\nout m\nout u\n",
    ];
    for text in texts {
        let circuit = parse(rt.alloc(), text)?;
        let written = circuit.text(rt.alloc())?;
        assert_eq!(rt; written.as_slice(), text);
    }
    Ok(())
}

#[test]
fn lines_and_steps(rt: HostRuntime) -> Result<(), Fail> {
    let circuit = parse(rt.alloc(), SUM)?;
    assert_eq!(rt; circuit.space(), 2);
    assert_eq!(rt; circuit.width(), 8);
    match (circuit.lines(), circuit.steps()) {
        ([_, _, add, out], [_, _, sum, given]) => {
            assert_eq!(rt; add.word, Word::Add);
            assert_eq!(rt; add.name.as_str(), "s");
            assert_eq!(rt; sum.kind, NameKind::Int(8));
            assert_eq!(rt; sum.sources.as_slice(), [0, 1].as_slice());
            assert_eq!(rt; out.word, Word::Out);
            assert_eq!(rt; given.sources.as_slice(), [2].as_slice());
        }
        _ => panic!(rt; "four lines"),
    }
    Ok(())
}

/// A text, its first wrong line, and the cause.
type Row<'a> = (&'a [u8], u32, LineCause);

fn refuse_all(rt: &impl Abort, alloc: Global, rows: &[Row<'_>]) {
    for (text, line, cause) in rows {
        let fault = LineFault {
            line: *line,
            cause: *cause,
        };
        assert!(rt; matches!(parse(alloc, *text), Err(ParseError::Line(found)) if found == fault));
    }
}

#[test]
fn lines_without_a_spelling(rt: HostRuntime) {
    refuse_all(
        &rt,
        rt.alloc(),
        &[
            (b"", 1, LineCause::Form),
            (b"\n", 1, LineCause::Form),
            (b"in a\n", 1, LineCause::Form),
            (b"bits 2 8", 1, LineCause::Form),
            (b"bits 2\n", 1, LineCause::Form),
            (b"bits 2 8 8\n", 1, LineCause::Form),
            (b"bits 02 8\n", 1, LineCause::Form),
            (b"bits 2 +8\n", 1, LineCause::Form),
            (b"bits 2 8\ndiff s a b\n", 2, LineCause::Form),
            (b"bits 2 8\nin\n", 2, LineCause::Form),
            (b"bits 2 8\nin a b\n", 2, LineCause::Form),
            (b"bits 2 8\nadd s a\n", 2, LineCause::Form),
            (b"bits 2 8\nadd s a a a\n", 2, LineCause::Form),
            (b"bits 2 8\nin  a\n", 2, LineCause::Form),
            (b"bits 2 8\n in a\n", 2, LineCause::Form),
            (b"bits 2 8\nin a \n", 2, LineCause::Form),
            (b"bits 2 8\nin a\n\nin b\n", 3, LineCause::Form),
            (b"bits 2 8\nin\ta\n", 2, LineCause::Form),
            (b"bits 2 8\r\nin a\n", 1, LineCause::Form),
            (b"bits 2 8\nin a", 2, LineCause::Form),
            (b"bits 2 8\nconst c 01\n", 2, LineCause::Form),
            (b"bits 2 8\nconst c -1\n", 2, LineCause::Form),
            (b"bits 2 8\nconst c x\n", 2, LineCause::Form),
            (b"bits 2 8\nin A\n", 2, LineCause::Form),
            (b"bits 2 8\nin 2a\n", 2, LineCause::Form),
            (
                b"bits 2 8\nin abcdefghijklmnopqrstuvwxyz0123456\n",
                2,
                LineCause::Form,
            ),
        ],
    );
}

#[test]
fn numerals_outside_their_ranges(rt: HostRuntime) {
    refuse_all(
        &rt,
        rt.alloc(),
        &[
            (b"bits 1 8\n", 1, LineCause::Number),
            (b"bits 4 8\n", 1, LineCause::Number),
            (b"bits 2 7\n", 1, LineCause::Number),
            (b"bits 2 66\n", 1, LineCause::Number),
            (b"bits 3 64\n", 1, LineCause::Number),
            (b"bits 2 31\n", 1, LineCause::Number),
            (b"bits 2 0\n", 1, LineCause::Number),
            (b"bits 2 18446744073709551616\n", 1, LineCause::Number),
            (b"bits 2 8\nconst c 256\n", 2, LineCause::Number),
            (
                b"bits 2 64\nconst c 18446744073709551616\n",
                2,
                LineCause::Number,
            ),
            (
                b"bits 2 8\nconst c 100000000000000000000\n",
                2,
                LineCause::Number,
            ),
            (b"bits 2 8\nconstw c 4 16\n", 2, LineCause::Number),
            (b"bits 2 8\ninw a 0\n", 2, LineCause::Number),
            (b"bits 2 8\nins a 65\n", 2, LineCause::Number),
            (b"bits 2 8\ninw a 5\n", 2, LineCause::Number),
            (b"bits 2 8\nin a\nshl s a 256\n", 3, LineCause::Number),
            (b"bits 2 8\nshl s a 256\n", 2, LineCause::Number),
            (b"bits 2 8\nshl s A 256\n", 2, LineCause::Form),
        ],
    );
}

#[test]
fn names_of_earlier_lines(rt: HostRuntime) {
    refuse_all(
        &rt,
        rt.alloc(),
        &[
            (b"bits 2 8\nnot s a\nin a\n", 2, LineCause::Unknown),
            (b"bits 2 8\nout a\n", 2, LineCause::Unknown),
            (b"bits 2 8\ninbit a\nadd a a b\n", 3, LineCause::Unknown),
            (
                b"bits 2 8\nin a\nout a\nnot s a\nadd a s a\n",
                5,
                LineCause::Again,
            ),
            (b"bits 2 8\ninbit a\nneg s a\n", 3, LineCause::Kind),
            (b"bits 2 8\nin a\ninw b 4\nadd s a b\n", 4, LineCause::Kind),
            (
                b"bits 2 8\ninw a 4\nins b 4\nadd s a b\n",
                4,
                LineCause::Kind,
            ),
            (b"bits 2 8\nin a\ninbit b\nand s a b\n", 4, LineCause::Kind),
            (b"bits 2 8\nins a 8\nshlv s a a\n", 3, LineCause::Kind),
            (b"bits 2 8\nin a\nselect s a a a\n", 3, LineCause::Kind),
            (b"bits 2 8\ninbit a\nneg a a\n", 3, LineCause::Kind),
            (b"bits 2 8\nin a\nin a\n", 3, LineCause::Again),
            (b"bits 2 8\nin a\nout a\nout a\n", 4, LineCause::Again),
        ],
    );
}

/// So many lines that begin with these words, and then a name of their own.
fn many(alloc: Global, words: &str, count: u32) -> Result<String, Fail> {
    let mut text = String::new(alloc);
    for number in 0..count {
        write!(text, "{words} v{number}\n")?;
    }
    Ok(text)
}

fn refuse_after(
    rt: &impl Abort,
    alloc: Global,
    full: &str,
    number: u32,
    rows: &[(&str, LineCause)],
) -> Result<(), Fail> {
    parse(alloc, full.as_bytes())?;
    for (last, cause) in rows {
        let text = format!(in alloc; "{full}{last}")?;
        let fault = LineFault {
            line: number,
            cause: *cause,
        };
        assert!(rt;
            matches!(parse(alloc, text.as_bytes()), Err(ParseError::Line(found)) if found == fault)
        );
    }
    Ok(())
}

#[test]
fn one_line_too_many(rt: HostRuntime) -> Result<(), Fail> {
    let mut full = String::from_str(rt.alloc(), "bits 2 8\n")?;
    for number in 0..4095 {
        write!(full, "constw c{number} 2 3\n")?;
    }
    let rows = [
        ("constw d 2 3\n", LineCause::Limit),
        ("constw c7 2 3\n", LineCause::Again),
        ("constw c7 2 4\n", LineCause::Number),
        ("not d e\n", LineCause::Unknown),
    ];
    refuse_after(&rt, rt.alloc(), full.as_str(), 4097, &rows)
}

#[test]
fn one_input_or_output_too_many(rt: HostRuntime) -> Result<(), Fail> {
    let mut full = String::from_str(rt.alloc(), "bits 2 8\n")?;
    full.push_str(many(rt.alloc(), "in", 64)?.as_str())?;
    let rows = [
        ("in a\n", LineCause::Limit),
        ("inbit v3\n", LineCause::Again),
        ("inw a 7\n", LineCause::Number),
    ];
    refuse_after(&rt, rt.alloc(), full.as_str(), 66, &rows)?;
    full.push_str("not a v0\n")?;
    full.push_str(many(rt.alloc(), "out", 64)?.as_str())?;
    let rows = [
        ("out a\n", LineCause::Limit),
        ("out v3\n", LineCause::Again),
        ("out b\n", LineCause::Unknown),
    ];
    refuse_after(&rt, rt.alloc(), full.as_str(), 131, &rows)
}

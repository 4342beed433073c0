//! `plain` and `make` over files in memory: what they print and write, and what they refuse.
use rx_store::MemStore;
use rx_tests_kit::{first_wrong, holds, no_files};
use std::alloc::{AllocError, Global};
use std::test::Fail;

/// A store of circuits, and of the value files of their inputs.
fn circuits(alloc: Global) -> Result<MemStore, AllocError> {
    let mut store = no_files(alloc);
    store.insert("sum", b"bits 2 8\nin a\nin b\nadd s a b\nout s\n")?;
    store.insert("sum.values", b"int a 8 200\nint b 8 100\n")?;
    store.insert(
        "more.values",
        b"bit c 1 1\nint b 8 100\nint a 8 200\nint d 64 5\n",
    )?;
    store.insert("bare", b"bits 2 2\n")?;
    store.insert("wide", b"bits 3 9\nin a\nconst one 1\nadd s a one\nout s\n")?;
    store.insert("wide.values", b"int a 9 511\n")?;
    store.insert("empty", b"")?;
    Ok(store)
}

#[test]
fn sums(rt: HostRuntime) -> Result<(), Fail> {
    let mut store = circuits(rt.alloc())?;
    let cases = [
        ("plain sum sum.values", 0, "s 44\n"),
        ("plain sum more.values", 0, "s 44\n"),
        ("plain bare empty", 0, ""),
        ("plain wide wide.values", 0, "s 0\n"),
    ];
    assert_eq!(rt; first_wrong(&rt, &mut store, &cases)?, None);
    Ok(())
}

/// Circuits of width 8 whose outputs are known.
fn operations(alloc: Global) -> Result<MemStore, AllocError> {
    let mut store = no_files(alloc);
    store.insert(
        "arithmetic",
        b"bits 2 8\nconst zero 0\nconst one 1\nconst c15 15\nconst c16 16\nconst c17 17\n\
        const top 255\nsub d zero one\nneg n zero\nmul p c15 c17\nmul q c16 c16\n\
        mul r c15 c15\nmax m top zero\nmin l top zero\nout d\nout n\nout p\nout q\n\
        out r\nout top\nout m\nout l\n",
    )?;
    store.insert(
        "bits",
        b"bits 2 8\nconst zero 0\nconst a 204\nconst b 170\nand x a b\nor y a b\n\
        xor z a b\nnot n zero\nconst c 200\nshl l c 9\nshr r c 3\nout x\nout y\nout z\n\
        out n\nout l\nout r\n",
    )?;
    store.insert(
        "shifts",
        b"bits 2 8\nconst one 1\nconst c7 7\nconst c8 8\nconst top 255\nshlv a one c7\n\
        shlv b one c8\nshrv c top top\nout a\nout b\nout c\n",
    )?;
    store.insert(
        "quotients",
        b"bits 2 8\nconst zero 0\nconst three 3\nconst five 5\nconst seven 7\n\
        const a 200\nconst top 255\ndiv q a seven\nrem r a seven\ndiv s five zero\n\
        rem t five zero\ndiv u zero three\nrem v zero three\ndiv w top top\n\
        rem x top top\nout q\nout r\nout s\nout t\nout u\nout v\nout w\nout x\n",
    )?;
    store.insert(
        "compare",
        b"bits 2 8\nin a\nlt l a a\nle m a a\ngt g a a\nge h a a\neq e a a\nne n a a\n\
        const seven 7\nconst nine 9\nselect s l seven nine\nselect t m seven nine\n\
        out l\nout m\nout g\nout h\nout e\nout n\nout s\nout t\n",
    )?;
    store.insert("compare.values", b"int a 8 3\n")?;
    store.insert(
        "signed",
        b"bits 2 8\nins a 4\nins b 4\ninw n 4\nlt l a b\nge g a b\nmin m a b\nmax x a b\n\
        mul p a b\nshr r a 1\nshr s a 9\nshrv t a n\nshlv u a n\ncasts d 8 a\n\
        cast e 8 n\ncast f 2 a\ncast h 8 l\nout l\nout g\nout m\nout x\nout p\nout r\n\
        out s\nout t\nout u\nout d\nout e\nout f\nout h\n",
    )?;
    store.insert("signed.values", b"int a 4 9\nint b 4 3\nint n 4 15\n")?;
    store.insert("empty", b"")?;
    Ok(store)
}

#[test]
fn values_of_operations(rt: HostRuntime) -> Result<(), Fail> {
    let mut store = operations(rt.alloc())?;
    let cases = [
        (
            "plain arithmetic empty",
            0,
            "d 255\nn 0\np 255\nq 0\nr 225\ntop 255\nm 255\nl 0\n",
        ),
        (
            "plain bits empty",
            0,
            "x 136\ny 238\nz 102\nn 255\nl 0\nr 25\n",
        ),
        ("plain shifts empty", 0, "a 128\nb 0\nc 0\n"),
        (
            "plain quotients empty",
            0,
            "q 28\nr 4\ns 255\nt 5\nu 0\nv 0\nw 1\nx 0\n",
        ),
        (
            "plain compare compare.values",
            0,
            "l 0\nm 1\ng 0\nh 1\ne 1\nn 0\ns 9\nt 7\n",
        ),
        (
            "plain signed signed.values",
            0,
            "l 1\ng 0\nm 9\nx 3\np 11\nr 12\ns 15\nt 15\nu 0\nd 249\ne 15\nf 1\nh 1\n",
        ),
    ];
    assert_eq!(rt; first_wrong(&rt, &mut store, &cases)?, None);
    Ok(())
}

/// Circuits and value files that are refused.
fn refused(alloc: Global) -> Result<MemStore, AllocError> {
    let mut store = circuits(alloc)?;
    store.insert("c", b"bits 2 31\n")?;
    store.insert("big", b"bits 2 8\nconst c 256\n")?;
    store.insert("late", b"bits 2 8\nin a\nadd s a b\nin b\n")?;
    store.insert("mixed", b"bits 2 8\nins a 4\ninw n 4\nadd s a n\n")?;
    store.insert("signed", b"bits 2 8\nins a 8\ndiv q a a\n")?;
    store.insert("twice", b"bits 2 8\nin a\nin a\n")?;
    store.insert("flag", b"bits 2 8\ninbit a\nout a\n")?;
    store.insert("v", b"int a 8 200")?;
    store.insert("one", b"int a 8 200\n")?;
    store.insert("narrow", b"int a 8 200\nint b 4 4\n")?;
    Ok(store)
}

#[test]
fn refusals_in_order(rt: HostRuntime) -> Result<(), Fail> {
    let mut store = refused(rt.alloc())?;
    let cases = [
        ("plain", 2, "usage\n"),
        ("plain sum", 2, "usage\n"),
        ("plain sum one two", 2, "usage\n"),
        ("plain none one", 3, ""),
        ("plain sum none", 3, ""),
        ("plain c v", 5, "malformed c line 1 number\n"),
        ("plain big empty", 5, "malformed big line 2 number\n"),
        ("plain late empty", 5, "malformed late line 3 unknown\n"),
        ("plain mixed empty", 5, "malformed mixed line 4 kind\n"),
        ("plain signed empty", 5, "malformed signed line 3 kind\n"),
        ("plain twice empty", 5, "malformed twice line 3 again\n"),
        ("plain empty empty", 5, "malformed empty line 1 form\n"),
        ("plain sum v", 5, "malformed v line 1 form\n"),
        ("plain sum empty", 8, "inputs a missing\n"),
        ("plain sum one", 8, "inputs b missing\n"),
        ("plain sum narrow", 8, "inputs b form\n"),
        ("plain flag one", 8, "inputs a form\n"),
    ];
    assert_eq!(rt; first_wrong(&rt, &mut store, &cases)?, None);
    Ok(())
}

/// The inputs of the sample of 1, worked out by a script.
const FIRST_VALUES: &[u8] = b"int i0 16 47062\nint i1 16 17241\nint i2 16 28876\nint i3 16 43750\n\
    int i4 16 15194\nint i5 16 49395\nint i6 16 23194\nint i7 16 43254\n";

/// Its circuit.
const FIRST_CIRCUIT: &[u8] =
    b"bits 2 16\nin i0\nin i1\nin i2\nin i3\nin i4\nin i5\nin i6\nin i7\nsub v0 i2 i3\n\
    mul v1 i3 i3\nmul v2 i2 i0\nmax v3 i3 v1\nand v4 i1 i2\nmul v5 i7 i7\nor v6 v0 i7\n\
    add v7 i2 v5\nor v8 i5 v6\nmul v9 v3 i7\nor v10 i7 v3\nor v11 i3 i7\nxor v12 v6 v0\n\
    xor v13 v6 i1\nmul v14 v2 v2\nmul v15 v11 v2\nout v8\nout v9\nout v10\nout v11\n\
    out v12\nout v13\nout v14\nout v15\n";

#[test]
fn samples(rt: HostRuntime) -> Result<(), Fail> {
    let mut store = no_files(rt.alloc());
    let cases = [
        ("make", 2, "usage\n"),
        ("make x c v", 2, "usage\n"),
        ("make 01 c v", 2, "usage\n"),
        ("make 18446744073709551616 c v", 2, "usage\n"),
        ("make 1 c v", 0, ""),
        (
            "plain c v",
            0,
            "v8 60919\nv9 10500\nv10 43766\nv11 43766\nv12 10256\nv13 44719\nv14 10304\nv15 42672\n",
        ),
        ("make 18446744073709551615 last last.values", 0, ""),
        (
            "plain last last.values",
            0,
            "v8 33154\nv9 32235\nv10 48341\nv11 33026\nv12 25154\nv13 55106\nv14 33154\nv15 28674\n",
        ),
    ];
    assert_eq!(rt; first_wrong(&rt, &mut store, &cases)?, None);
    assert!(rt; holds(&store, "c", FIRST_CIRCUIT));
    assert!(rt; holds(&store, "v", FIRST_VALUES));
    Ok(())
}

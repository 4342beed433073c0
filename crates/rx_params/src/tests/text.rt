//! Parameter texts whose sets or faults are known.
use crate::{LineCause, LineFault, named, read_params};

const TEXT: &[u8] =
    b"message_bits 2\nglwe_dim 1\npoly_size 256\nlwe_dim 8\npbs_base_log 12\npbs_level 2\nks_base_log 4\nks_level 6\nglwe_bound 17\nlwe_bound 20\n";

#[test]
fn text_of_a_set(rt: HostRuntime) {
    assert_eq!(rt; read_params(TEXT).ok(), named("rx-test"));
}

#[test]
fn first_wrong_line(rt: HostRuntime) {
    let rows: [(&[u8], u32, LineCause); 12] = [
        (b"", 1, LineCause::Form),
        (b"message_bits 2\n", 2, LineCause::Form),
        (b"message_bits 2", 1, LineCause::Form),
        (b"message_bits 02\n", 1, LineCause::Form),
        (b"message_bits 2 \n", 1, LineCause::Form),
        (b"message_bits  2\n", 1, LineCause::Form),
        (b"message_bits 2\r\n", 1, LineCause::Form),
        (b"glwe_dim 1\n", 1, LineCause::Form),
        (b"message_bits 4294967296\n", 1, LineCause::Number),
        (
            b"message_bits 100000000000000000000\n",
            1,
            LineCause::Number,
        ),
        (
            b"message_bits 4294967295\nglwe_dim -1\n",
            2,
            LineCause::Form,
        ),
        (b"message_bits 2\n\nglwe_dim 1\n", 2, LineCause::Form),
    ];
    for (bytes, line, cause) in rows {
        assert_eq!(rt; read_params(bytes).err(), Some(LineFault { line, cause }));
    }
}

#[test]
fn lines_after_the_ninth(rt: HostRuntime) {
    let mut longer = [0u8; 131];
    let size = TEXT.len();
    assert_eq!(rt; size, 130);
    longer[..130].copy_from_slice(TEXT);
    longer[130] = b'\n';
    let eleventh = Some(LineFault {
        line: 11,
        cause: LineCause::Form,
    });
    assert_eq!(rt; read_params(&longer).err(), eleventh);
    let tenth = Some(LineFault {
        line: 10,
        cause: LineCause::Form,
    });
    assert_eq!(rt; read_params(&longer[..129]).err(), tenth);
    assert_eq!(rt; read_params(&longer[..117]).err(), tenth);
}

//! What a binary file is, by its first four bytes.
ghost use Rattle.std.specs.Prelude.{◌≡◌, ◌<◌, length};
ghost use Rattle.rx_seeded.specs.FileKinds.{begins as file_begins, kind_of};

/// The kinds of binary files.
#[derive(Clone, Copy, Debug, PartialEq, Eq)]
pub enum FileKind {
    /// A client file, `RXC1`.
    Client,
    /// A server file of version 1, `RXS1`.
    Server,
    /// A server file by its mask seed, `RXS2`.
    SeededServer,
    /// A ciphertext file of version 1, `RXE1`.
    Cipher,
    /// A ciphertext file by its mask seed, `RXE2`.
    SeededCipher,
    /// A net file, `RXN1`.
    Net,
    /// A file of a pair key, `RXM1`.
    Pairs,
}

/// The kind that the first four bytes of a file tell, whatever follows. It takes no memory.
pub fn file_kind(bytes: &[u8]) -> Option<FileKind>
    ensures { result ≡ kind_of bytes.now }
{
    if begins(bytes, b"RXC1") {
        Some(FileKind::Client)
    } else if begins(bytes, b"RXS1") {
        Some(FileKind::Server)
    } else if begins(bytes, b"RXS2") {
        Some(FileKind::SeededServer)
    } else if begins(bytes, b"RXE1") {
        Some(FileKind::Cipher)
    } else if begins(bytes, b"RXE2") {
        Some(FileKind::SeededCipher)
    } else if begins(bytes, b"RXN1") {
        Some(FileKind::Net)
    } else if begins(bytes, b"RXM1") {
        Some(FileKind::Pairs)
    } else {
        None
    }
}

/// Whether a file begins with these four bytes.
pub fn begins(bytes: &[u8], magic: &[u8; 4]) -> bool
    ensures { result ≡ file_begins bytes.now magic.now }
{
    let end = bytes.len().min(4);
    bytes[..end] == magic[..]
}

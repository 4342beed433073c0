//! The laws of the inputs of nets and of their outputs.
ghost use Rattle.rx_server.specs.Laws.{ServerLaws};

/// What is found for the inputs of a net in files of one set are blocks for its input cells, and keep what the
/// items keep; the outputs of a legal net, over blocks for all its cells, have a ciphertext file; and their
/// items keep what the cells keep.
pub fn server_laws()
    ensures { ServerLaws }
{}

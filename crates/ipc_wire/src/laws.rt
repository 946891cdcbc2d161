//! What is true of the bytes of all requests. A law is a function that does nothing: what it ensures is the law.

ghost use Rattle.ipc_wire.specs.Laws.{HasOneEncoding, IsReadBack};

/// The bytes of a message are read as that message.
pub fn message_is_read_back()
    ensures { IsReadBack }
{}

/// What is read as a message are the bytes of that message, and no others are.
pub fn message_has_one_encoding()
    ensures { HasOneEncoding }
{}

//! Laws of bytes.

ghost use Rattle.nr_wire.specs.declared.hello.Side.TheVariants.{Initiator, Responder};
ghost use Rattle.nr_byte_laws.specs.DueBytes.{DueOutputIsBytes, OutcomesAreBytes, ReadyPayloadsAreBytes};
ghost use Rattle.nr_byte_laws.specs.InBytes.{AddedEntriesAreInBytes, PlainRepliesAreBytes};

/// On every link of a run that is of its types (what is written down as bytes are bytes), what each side has to write are bytes, and so are the payloads
/// of the calls that the server has complete, and the replies among the outcomes that messages brought to the client. If the link was reopened, what
/// its client sends again has to be bytes.
pub fn due_output_is_bytes()
    ensures client { DueOutputIsBytes Initiator }
    ensures server { DueOutputIsBytes Responder }
    ensures payloads { ReadyPayloadsAreBytes }
    ensures outcomes { OutcomesAreBytes }
{}

/// Over a first tree whose files, names and links hold bytes, and a journal whose arguments are bytes, each reply of the plain server is bytes; and a
/// call whose payload is bytes adds entries whose arguments are bytes.
pub fn plain_replies_are_bytes()
    ensures replies { PlainRepliesAreBytes }
    ensures entries { AddedEntriesAreInBytes }
{}

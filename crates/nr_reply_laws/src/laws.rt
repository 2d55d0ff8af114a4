//! Laws of replies.

ghost use Rattle.nr_reply_laws.specs.Replies.{CreateRepliesAreRead, GetattrRepliesAreRead, LookupRepliesAreRead, MkdirRepliesAreRead, MountRepliesAreRead, ReadRepliesAreRead, ReaddirRepliesAreRead, ReadlinkRepliesAreRead, RemoveRepliesAreRead, SymlinkRepliesAreRead, WriteRepliesAreRead};

/// Each reply of the plain server to a call of a command, at any place of any journal, is read by the client as results that it can go on with, or
/// as a refusal: never as a bad reply. MNT, LOOKUP and CREATE give a handle; READDIR lists an entry or says that the directory ends; READ gives at
/// most what was asked for, and something or the end of the file; WRITE wrote something, and at most what was sent.
pub fn plain_replies_are_read()
    ensures mount { MountRepliesAreRead }
    ensures look_up { LookupRepliesAreRead }
    ensures attributes { GetattrRepliesAreRead }
    ensures link_read { ReadlinkRepliesAreRead }
    ensures listed { ReaddirRepliesAreRead }
    ensures directory_made { MkdirRepliesAreRead }
    ensures link_made { SymlinkRepliesAreRead }
    ensures removed { RemoveRepliesAreRead }
    ensures created { CreateRepliesAreRead }
    ensures file_read { ReadRepliesAreRead }
    ensures file_written { WriteRepliesAreRead }
{}

//! The unit of the length of a Send, the numbers of the reasons for which a link ends, beyond those of a frame alone (`nr_wire`), and the
//! words of a Terminate. All are this implementation's own.

/// The unit of the length of a Send, in bytes: its maximum in each direction unless both hellos agree on more.
pub const SEND_UNIT: u32 = 1024;

/// A message number isn't the next of its queue (RFC 5041 section 4.3).
pub const REASON_MSN: u32 = 11;

/// A message offset isn't the number of bytes of its message so far.
pub const REASON_OFFSET: u32 = 12;

/// A Read Request or a Terminate has another form (RFC 5040 sections 4.4, 4.8).
pub const REASON_FORM: u32 = 13;

/// A Read Response isn't the one that is expected (RFC 5040 section 5.2).
pub const REASON_RESPONSE: u32 = 14;

/// A Read Request while the maximum number of Read Responses is owed.
pub const REASON_REQUESTS: u32 = 15;

/// A Send is shorter than the fixed words of a transport header (RFC 8166 section 4.1).
pub const REASON_SHORT: u32 = 16;

/// A message is of a kind that this side doesn't take.
pub const REASON_KIND: u32 = 17;

/// A payload doesn't begin with an RPC head (RFC 5531 section 9).
pub const REASON_HEAD: u32 = 18;

/// The RPC head has another xid than the transport header.
pub const REASON_XID: u32 = 19;

/// A call's xid is open at the server, or a reply's xid isn't outstanding at the client.
pub const REASON_CALL: u32 = 20;

/// The chunks of a message aren't those that its receiver can take.
pub const REASON_CHUNKS: u32 = 21;

/// A Send is longer than its receive.
pub const REASON_LONG: u32 = 22;

/// A client gets a message of another version of RPC-over-RDMA (RFC 8166 section 4.1).
pub const REASON_VERSION: u32 = 23;

/// A call of a client with a number is old when its turn to be executed comes.
pub const REASON_OLD: u32 = 28;

/// A Send with Invalidate names an STag that was not given to the call which it answers.
pub const REASON_INVALIDATED: u32 = 29;

/// No STag is left for a chunk of a call.
pub const REASON_STAGS: u32 = 30;

/// By the server's hello to a client that was reopened other lengths of Sends are agreed on than by an earlier one.
pub const REASON_SIZES: u32 = 31;

/// The word of a Terminate for an access to an STag that isn't live.
pub const WORD_NO_STAG: u32 = 101;

/// The word of a Terminate for an access beyond the end of its region.
pub const WORD_BOUNDS: u32 = 102;

/// The word of a Terminate for an access to a region of another right.
pub const WORD_RIGHT: u32 = 103;

/// The word of a Terminate for a Send that found no receive.
pub const WORD_NO_BUFFER: u32 = 104;

/// What the server of a connection allows its client.
#[derive(Clone, Copy)]
pub struct ConnectionLimits {
    /// The calls that the client may have outstanding, 1 to 64: the credits that are granted (RFC 8166 section 3.3).
    pub credits: u32,
    /// The most credits that a message grants which is due while more than half of the receives are in use, from 1 to
    /// `credits`. Nothing is required of it: with 0 the credit word is 0 then, and with more than `credits` it plays no
    /// part.
    pub low: u32,
    /// The units of 1,024 bytes that the server has for its Sends in each direction, 1 to 16 (0 counts as 1, and more
    /// than 16 as 16).
    pub units: u8,
    /// Whether the server answers by Sends with Invalidate (RFC 5040 section 4.7) if the client takes them.
    pub invalidates: bool,
}

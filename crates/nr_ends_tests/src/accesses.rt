//! What a peer may do with the regions of both ends: each kind of segment into each right, at the last byte, one past it, and with a sum of
//! offset and length that passes 2^64; into an STag that was never given, was released, or was revoked.

use crate::script::rows;

/// At the client: of the first call STag 1 was released; of the second, which is outstanding, 2 has its read chunk (Fetch), 3 its write
/// chunk and 4 its reply chunk (Fill); those of the third, which was revoked, were 5 to 7; 8 and 0 were never given.
static AT_CLIENT: &str = "\
up\n\
down\n\
exchange chunk 6 : 8 0 2 0 0 5 ; 0 0 5 1 5 68656c6c 6f000000 = Inline\n\
submit 40/8/8/8 1 : 8 0 2\n\
revoke 40/8/8/8 1 1 0 : 8 0 2 ; 0 0\n\
feed-down : $0$ = $1$\n\
";

/// The FPDU of an access of four bytes (RFC 5040 section 4): a Write, a Read Response and a Read Request, of each STag at the last four of eight
/// bytes, at byte 5 and at 2^64 - 2; and the end.
static TO_CLIENT: &str = "\
12c140 0 0 4 77697265 0 | Denied { stag: 0, offset: 4, why: NoStag }\n\
12c140 0 0 5 77697265 0 | Denied { stag: 0, offset: 5, why: NoStag }\n\
12c140 0 ffffffff fffffffe 77697265 0 | Denied { stag: 0, offset: 18446744073709551614, why: NoStag }\n\
12c140 1 0 4 77697265 0 | Denied { stag: 1, offset: 4, why: NoStag }\n\
12c140 1 0 5 77697265 0 | Denied { stag: 1, offset: 5, why: NoStag }\n\
12c140 1 ffffffff fffffffe 77697265 0 | Denied { stag: 1, offset: 18446744073709551614, why: NoStag }\n\
12c140 2 0 4 77697265 0 | Denied { stag: 2, offset: 4, why: Right }\n\
12c140 2 0 5 77697265 0 | Denied { stag: 2, offset: 5, why: Bounds }\n\
12c140 2 ffffffff fffffffe 77697265 0 | Denied { stag: 2, offset: 18446744073709551614, why: Bounds }\n\
12c140 3 0 4 77697265 0 |\n\
12c140 3 0 5 77697265 0 | Denied { stag: 3, offset: 5, why: Bounds }\n\
12c140 3 ffffffff fffffffe 77697265 0 | Denied { stag: 3, offset: 18446744073709551614, why: Bounds }\n\
12c140 4 0 4 77697265 0 |\n\
12c140 4 0 5 77697265 0 | Denied { stag: 4, offset: 5, why: Bounds }\n\
12c140 4 ffffffff fffffffe 77697265 0 | Denied { stag: 4, offset: 18446744073709551614, why: Bounds }\n\
12c140 5 0 4 77697265 0 | Denied { stag: 5, offset: 4, why: NoStag }\n\
12c140 5 0 5 77697265 0 | Denied { stag: 5, offset: 5, why: NoStag }\n\
12c140 5 ffffffff fffffffe 77697265 0 | Denied { stag: 5, offset: 18446744073709551614, why: NoStag }\n\
12c140 6 0 4 77697265 0 | Denied { stag: 6, offset: 4, why: NoStag }\n\
12c140 6 0 5 77697265 0 | Denied { stag: 6, offset: 5, why: NoStag }\n\
12c140 6 ffffffff fffffffe 77697265 0 | Denied { stag: 6, offset: 18446744073709551614, why: NoStag }\n\
12c140 7 0 4 77697265 0 | Denied { stag: 7, offset: 4, why: NoStag }\n\
12c140 7 0 5 77697265 0 | Denied { stag: 7, offset: 5, why: NoStag }\n\
12c140 7 ffffffff fffffffe 77697265 0 | Denied { stag: 7, offset: 18446744073709551614, why: NoStag }\n\
12c140 8 0 4 77697265 0 | Denied { stag: 8, offset: 4, why: NoStag }\n\
12c140 8 0 5 77697265 0 | Denied { stag: 8, offset: 5, why: NoStag }\n\
12c140 8 ffffffff fffffffe 77697265 0 | Denied { stag: 8, offset: 18446744073709551614, why: NoStag }\n\
12c142 0 0 4 77697265 0 | Denied { stag: 0, offset: 4, why: NoStag }\n\
12c142 0 0 5 77697265 0 | Denied { stag: 0, offset: 5, why: NoStag }\n\
12c142 0 ffffffff fffffffe 77697265 0 | Denied { stag: 0, offset: 18446744073709551614, why: NoStag }\n\
12c142 1 0 4 77697265 0 | Denied { stag: 1, offset: 4, why: NoStag }\n\
12c142 1 0 5 77697265 0 | Denied { stag: 1, offset: 5, why: NoStag }\n\
12c142 1 ffffffff fffffffe 77697265 0 | Denied { stag: 1, offset: 18446744073709551614, why: NoStag }\n\
12c142 2 0 4 77697265 0 | Denied { stag: 2, offset: 4, why: Right }\n\
12c142 2 0 5 77697265 0 | Denied { stag: 2, offset: 5, why: Bounds }\n\
12c142 2 ffffffff fffffffe 77697265 0 | Denied { stag: 2, offset: 18446744073709551614, why: Bounds }\n\
12c142 3 0 4 77697265 0 | Denied { stag: 3, offset: 4, why: Right }\n\
12c142 3 0 5 77697265 0 | Denied { stag: 3, offset: 5, why: Bounds }\n\
12c142 3 ffffffff fffffffe 77697265 0 | Denied { stag: 3, offset: 18446744073709551614, why: Bounds }\n\
12c142 4 0 4 77697265 0 | Denied { stag: 4, offset: 4, why: Right }\n\
12c142 4 0 5 77697265 0 | Denied { stag: 4, offset: 5, why: Bounds }\n\
12c142 4 ffffffff fffffffe 77697265 0 | Denied { stag: 4, offset: 18446744073709551614, why: Bounds }\n\
12c142 5 0 4 77697265 0 | Denied { stag: 5, offset: 4, why: NoStag }\n\
12c142 5 0 5 77697265 0 | Denied { stag: 5, offset: 5, why: NoStag }\n\
12c142 5 ffffffff fffffffe 77697265 0 | Denied { stag: 5, offset: 18446744073709551614, why: NoStag }\n\
12c142 6 0 4 77697265 0 | Denied { stag: 6, offset: 4, why: NoStag }\n\
12c142 6 0 5 77697265 0 | Denied { stag: 6, offset: 5, why: NoStag }\n\
12c142 6 ffffffff fffffffe 77697265 0 | Denied { stag: 6, offset: 18446744073709551614, why: NoStag }\n\
12c142 7 0 4 77697265 0 | Denied { stag: 7, offset: 4, why: NoStag }\n\
12c142 7 0 5 77697265 0 | Denied { stag: 7, offset: 5, why: NoStag }\n\
12c142 7 ffffffff fffffffe 77697265 0 | Denied { stag: 7, offset: 18446744073709551614, why: NoStag }\n\
12c142 8 0 4 77697265 0 | Denied { stag: 8, offset: 4, why: NoStag }\n\
12c142 8 0 5 77697265 0 | Denied { stag: 8, offset: 5, why: NoStag }\n\
12c142 8 ffffffff fffffffe 77697265 0 | Denied { stag: 8, offset: 18446744073709551614, why: NoStag }\n\
2e4141 0 1 1 0 9 0 0 4 0 0 4 0 | Denied { stag: 0, offset: 4, why: NoStag }\n\
2e4141 0 1 1 0 9 0 0 4 0 0 5 0 | Denied { stag: 0, offset: 5, why: NoStag }\n\
2e4141 0 1 1 0 9 0 0 4 0 ffffffff fffffffe 0 | Denied { stag: 0, offset: 18446744073709551614, why: NoStag }\n\
2e4141 0 1 1 0 9 0 0 4 1 0 4 0 | Denied { stag: 1, offset: 4, why: NoStag }\n\
2e4141 0 1 1 0 9 0 0 4 1 0 5 0 | Denied { stag: 1, offset: 5, why: NoStag }\n\
2e4141 0 1 1 0 9 0 0 4 1 ffffffff fffffffe 0 | Denied { stag: 1, offset: 18446744073709551614, why: NoStag }\n\
2e4141 0 1 1 0 9 0 0 4 2 0 4 0 |\n\
2e4141 0 1 1 0 9 0 0 4 2 0 5 0 | Denied { stag: 2, offset: 5, why: Bounds }\n\
2e4141 0 1 1 0 9 0 0 4 2 ffffffff fffffffe 0 | Denied { stag: 2, offset: 18446744073709551614, why: Bounds }\n\
2e4141 0 1 1 0 9 0 0 4 3 0 4 0 | Denied { stag: 3, offset: 4, why: Right }\n\
2e4141 0 1 1 0 9 0 0 4 3 0 5 0 | Denied { stag: 3, offset: 5, why: Bounds }\n\
2e4141 0 1 1 0 9 0 0 4 3 ffffffff fffffffe 0 | Denied { stag: 3, offset: 18446744073709551614, why: Bounds }\n\
2e4141 0 1 1 0 9 0 0 4 4 0 4 0 | Denied { stag: 4, offset: 4, why: Right }\n\
2e4141 0 1 1 0 9 0 0 4 4 0 5 0 | Denied { stag: 4, offset: 5, why: Bounds }\n\
2e4141 0 1 1 0 9 0 0 4 4 ffffffff fffffffe 0 | Denied { stag: 4, offset: 18446744073709551614, why: Bounds }\n\
2e4141 0 1 1 0 9 0 0 4 5 0 4 0 | Denied { stag: 5, offset: 4, why: NoStag }\n\
2e4141 0 1 1 0 9 0 0 4 5 0 5 0 | Denied { stag: 5, offset: 5, why: NoStag }\n\
2e4141 0 1 1 0 9 0 0 4 5 ffffffff fffffffe 0 | Denied { stag: 5, offset: 18446744073709551614, why: NoStag }\n\
2e4141 0 1 1 0 9 0 0 4 6 0 4 0 | Denied { stag: 6, offset: 4, why: NoStag }\n\
2e4141 0 1 1 0 9 0 0 4 6 0 5 0 | Denied { stag: 6, offset: 5, why: NoStag }\n\
2e4141 0 1 1 0 9 0 0 4 6 ffffffff fffffffe 0 | Denied { stag: 6, offset: 18446744073709551614, why: NoStag }\n\
2e4141 0 1 1 0 9 0 0 4 7 0 4 0 | Denied { stag: 7, offset: 4, why: NoStag }\n\
2e4141 0 1 1 0 9 0 0 4 7 0 5 0 | Denied { stag: 7, offset: 5, why: NoStag }\n\
2e4141 0 1 1 0 9 0 0 4 7 ffffffff fffffffe 0 | Denied { stag: 7, offset: 18446744073709551614, why: NoStag }\n\
2e4141 0 1 1 0 9 0 0 4 8 0 4 0 | Denied { stag: 8, offset: 4, why: NoStag }\n\
2e4141 0 1 1 0 9 0 0 4 8 0 5 0 | Denied { stag: 8, offset: 5, why: NoStag }\n\
2e4141 0 1 1 0 9 0 0 4 8 ffffffff fffffffe 0 | Denied { stag: 8, offset: 18446744073709551614, why: NoStag }\n\
";

/// At the server: STag 1, of the first call, a WRITE of eight bytes, was released; 2 (Sink), of the second, is read, and its last four bytes are
/// awaited; 3 and 0 were never given. The data of the second is read in two parts (RFC 8166 section 4.3.1).
static AT_SERVER: &str = "\
feed-up : hello 10000 8e4143 0 0 1 0 1 1 10 0 1 48 9 8 0*5 1 0 2 186a3 3 7 0*4 8 0 2 0 0 8 2 8 0 16c142 1 0 0 1 2 0\n\
answer : 0*6 = (80, Inline)\n\
feed-up : a64143 0 0 2 0 2 1 10 0 1 48 9 4 0 0 1 48 9 4 0 4 0*3 2 0 2 186a3 3 7 0*4 8 0 2 0 0 8 2 8 0 12c142 2 0 0 3 0\n\
drain\n\
feed-up : $0$ = $1$\n\
";

/// The same accesses.
static TO_SERVER: &str = "\
12c140 0 0 4 77697265 0 | Denied { stag: 0, offset: 4, why: NoStag }\n\
12c140 0 0 5 77697265 0 | Denied { stag: 0, offset: 5, why: NoStag }\n\
12c140 0 ffffffff fffffffe 77697265 0 | Denied { stag: 0, offset: 18446744073709551614, why: NoStag }\n\
12c140 1 0 4 77697265 0 | Denied { stag: 1, offset: 4, why: NoStag }\n\
12c140 1 0 5 77697265 0 | Denied { stag: 1, offset: 5, why: NoStag }\n\
12c140 1 ffffffff fffffffe 77697265 0 | Denied { stag: 1, offset: 18446744073709551614, why: NoStag }\n\
12c140 2 0 4 77697265 0 | Denied { stag: 2, offset: 4, why: Right }\n\
12c140 2 0 5 77697265 0 | Denied { stag: 2, offset: 5, why: Bounds }\n\
12c140 2 ffffffff fffffffe 77697265 0 | Denied { stag: 2, offset: 18446744073709551614, why: Bounds }\n\
12c140 3 0 4 77697265 0 | Denied { stag: 3, offset: 4, why: NoStag }\n\
12c140 3 0 5 77697265 0 | Denied { stag: 3, offset: 5, why: NoStag }\n\
12c140 3 ffffffff fffffffe 77697265 0 | Denied { stag: 3, offset: 18446744073709551614, why: NoStag }\n\
12c142 0 0 4 77697265 0 | Denied { stag: 0, offset: 4, why: NoStag }\n\
12c142 0 0 5 77697265 0 | Denied { stag: 0, offset: 5, why: NoStag }\n\
12c142 0 ffffffff fffffffe 77697265 0 | Denied { stag: 0, offset: 18446744073709551614, why: NoStag }\n\
12c142 1 0 4 77697265 0 | Denied { stag: 1, offset: 4, why: NoStag }\n\
12c142 1 0 5 77697265 0 | Denied { stag: 1, offset: 5, why: NoStag }\n\
12c142 1 ffffffff fffffffe 77697265 0 | Denied { stag: 1, offset: 18446744073709551614, why: NoStag }\n\
12c142 2 0 4 77697265 0 |\n\
12c142 2 0 5 77697265 0 | Denied { stag: 2, offset: 5, why: Bounds }\n\
12c142 2 ffffffff fffffffe 77697265 0 | Denied { stag: 2, offset: 18446744073709551614, why: Bounds }\n\
12c142 3 0 4 77697265 0 | Denied { stag: 3, offset: 4, why: NoStag }\n\
12c142 3 0 5 77697265 0 | Denied { stag: 3, offset: 5, why: NoStag }\n\
12c142 3 ffffffff fffffffe 77697265 0 | Denied { stag: 3, offset: 18446744073709551614, why: NoStag }\n\
2e4141 0 1 1 0 9 0 0 4 0 0 4 0 | Denied { stag: 0, offset: 4, why: NoStag }\n\
2e4141 0 1 1 0 9 0 0 4 0 0 5 0 | Denied { stag: 0, offset: 5, why: NoStag }\n\
2e4141 0 1 1 0 9 0 0 4 0 ffffffff fffffffe 0 | Denied { stag: 0, offset: 18446744073709551614, why: NoStag }\n\
2e4141 0 1 1 0 9 0 0 4 1 0 4 0 | Denied { stag: 1, offset: 4, why: NoStag }\n\
2e4141 0 1 1 0 9 0 0 4 1 0 5 0 | Denied { stag: 1, offset: 5, why: NoStag }\n\
2e4141 0 1 1 0 9 0 0 4 1 ffffffff fffffffe 0 | Denied { stag: 1, offset: 18446744073709551614, why: NoStag }\n\
2e4141 0 1 1 0 9 0 0 4 2 0 4 0 | Denied { stag: 2, offset: 4, why: Right }\n\
2e4141 0 1 1 0 9 0 0 4 2 0 5 0 | Denied { stag: 2, offset: 5, why: Bounds }\n\
2e4141 0 1 1 0 9 0 0 4 2 ffffffff fffffffe 0 | Denied { stag: 2, offset: 18446744073709551614, why: Bounds }\n\
2e4141 0 1 1 0 9 0 0 4 3 0 4 0 | Denied { stag: 3, offset: 4, why: NoStag }\n\
2e4141 0 1 1 0 9 0 0 4 3 0 5 0 | Denied { stag: 3, offset: 5, why: NoStag }\n\
2e4141 0 1 1 0 9 0 0 4 3 ffffffff fffffffe 0 | Denied { stag: 3, offset: 18446744073709551614, why: NoStag }\n\
";

#[test]
fn accesses(rt: HostRuntime) {
    rows(&rt, rt.alloc(), &[1, 65536], AT_CLIENT, TO_CLIENT);
    rows(&rt, rt.alloc(), &[1, 65536], AT_SERVER, TO_SERVER);
}

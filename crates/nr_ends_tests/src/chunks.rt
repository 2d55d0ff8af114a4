//! Calls at the limits of an offer, fed to a server end as bytes, with all that it writes; and nine reads, of which eight are open at a time.

use crate::script::run;

/// Four write chunks of four segments, with handles from 11, 21, 31 and 41 on (RFC 8166 section 4.3.2), and a reply chunk of 16, with handles from
/// 51 on (section 4.3.3): a header may have no more.
static CHUNKS: &str = "\
# A READ of `hello`: four bytes go to the first segment of the first chunk, one to the second.\n\
open 16\n\
feed-up : hello 10000 2924143 0 0 1 0 1 1 10 0 0 1 4 b 4 0 7 c 4 0 7 d 4 0 7 e 4 0 7 1 4 15 4 0 7 16 4 0 7 17 4 0 7 18 4 0 7 1 4 1f 4 0 7 20 4 0 7 21 4 0 7 22 4 0 7 1 4 29 4 0 7 2a 4 0 7 2b 4 0 7 2c 4 0 7 0 1 10 33 64 0 9 34 64 0 9 35 64 0 9 36 64 0 9 37 64 0 9 38 64 0 9 39 64 0 9 3a 64 0 9 3b 64 0 9 3c 64 0 9 3d 64 0 9 3e 64 0 9 3f 64 0 9 40 64 0 9 41 64 0 9 42 64 0 9 1 0 2 186a3 3 6 0*4 8 0 2 0 0 5 0\n\
answer : 1 1 0*6 5 1 5 68656c6c 6f000000 = (64, Inline)\n\
server-writes : hello-back 10000 12c140 b 0 7 68656c6c 0 fc140 c 0 7 6f000000 0 17a4143 0 0 1 0 1 1 10 0 0 1 4 b 4 0 7 c 1 0 7 d 0 0 7 e 0 0 7 1 4 15 0 0 7 16 0 0 7 17 0 0 7 18 0 0 7 1 4 1f 0 0 7 20 0 0 7 21 0 0 7 22 0 0 7 1 4 29 0 0 7 2a 0 0 7 2b 0 0 7 2c 0 0 7 0 0 1 1 0*6 5 1 5 0\n\
# A READDIR with a reply of 1,224 bytes: twelve segments of the reply chunk are filled, and 24 bytes go to the next one.\n\
open 16\n\
feed-up : hello 10000 29a4143 0 0 1 0 1 1 10 0 0 1 4 b 4 0 7 c 4 0 7 d 4 0 7 e 4 0 7 1 4 15 4 0 7 16 4 0 7 17 4 0 7 18 4 0 7 1 4 1f 4 0 7 20 4 0 7 21 4 0 7 22 4 0 7 1 4 29 4 0 7 2a 4 0 7 2b 4 0 7 2c 4 0 7 0 1 10 33 64 0 9 34 64 0 9 35 64 0 9 36 64 0 9 37 64 0 9 38 64 0 9 39 64 0 9 3a 64 0 9 3b 64 0 9 3c 64 0 9 3d 64 0 9 3e 64 0 9 3f 64 0 9 40 64 0 9 41 64 0 9 42 64 0 9 1 0 2 186a3 3 10 0*4 8 0 4 0*4 4b0 0\n\
answer : 1 1 0*5 1 2 3 4 5 6 7 8 9 a b c d e f 10 11 12 13 14 15 16 17 18 19 1a 1b 1c 1d 1e 1f 20 21 22 23 24 25 26 27 28 29 2a 2b 2c 2d 2e 2f 30 31 32 33 34 35 36 37 38 39 3a 3b 3c 3d 3e 3f 40 41 42 43 44 45 46 47 48 49 4a 4b 4c 4d 4e 4f 50 51 52 53 54 55 56 57 58 59 5a 5b 5c 5d 5e 5f 60 61 62 63 64 65 66 67 68 69 6a 6b 6c 6d 6e 6f 70 71 72 73 74 75 76 77 78 79 7a 7b 7c 7d 7e 7f 80 81 82 83 84 85 86 87 88 89 8a 8b 8c 8d 8e 8f 90 91 92 93 94 95 96 97 98 99 9a 9b 9c 9d 9e 9f a0 a1 a2 a3 a4 a5 a6 a7 a8 a9 aa ab ac ad ae af b0 b1 b2 b3 b4 b5 b6 b7 b8 b9 ba bb bc bd be bf c0 c1 c2 c3 c4 c5 c6 c7 c8 c9 ca cb cc cd ce cf d0 d1 d2 d3 d4 d5 d6 d7 d8 d9 da db dc dd de df e0 e1 e2 e3 e4 e5 e6 e7 e8 e9 ea eb ec ed ee ef f0 f1 f2 f3 f4 f5 f6 f7 f8 f9 fa fb fc fd fe ff 100 101 102 103 104 105 106 107 108 109 10a 10b 10c 10d 10e 10f 110 111 112 113 114 115 116 117 118 119 11a 11b 11c 11d 11e 11f 120 121 122 123 124 125 126 127 128 129 12a 12b = (72, Long)\n\
server-writes : hello-back 10000 72c140 33 0 9 1 1 0*5 1 2 3 4 5 6 7 8 9 a b c d e f 10 11 12 0 72c140 34 0 9 13 14 15 16 17 18 19 1a 1b 1c 1d 1e 1f 20 21 22 23 24 25 26 27 28 29 2a 2b 0 72c140 35 0 9 2c 2d 2e 2f 30 31 32 33 34 35 36 37 38 39 3a 3b 3c 3d 3e 3f 40 41 42 43 44 0 72c140 36 0 9 45 46 47 48 49 4a 4b 4c 4d 4e 4f 50 51 52 53 54 55 56 57 58 59 5a 5b 5c 5d 0 72c140 37 0 9 5e 5f 60 61 62 63 64 65 66 67 68 69 6a 6b 6c 6d 6e 6f 70 71 72 73 74 75 76 0 72c140 38 0 9 77 78 79 7a 7b 7c 7d 7e 7f 80 81 82 83 84 85 86 87 88 89 8a 8b 8c 8d 8e 8f 0 72c140 39 0 9 90 91 92 93 94 95 96 97 98 99 9a 9b 9c 9d 9e 9f a0 a1 a2 a3 a4 a5 a6 a7 a8 0 72c140 3a 0 9 a9 aa ab ac ad ae af b0 b1 b2 b3 b4 b5 b6 b7 b8 b9 ba bb bc bd be bf c0 c1 0 72c140 3b 0 9 c2 c3 c4 c5 c6 c7 c8 c9 ca cb cc cd ce cf d0 d1 d2 d3 d4 d5 d6 d7 d8 d9 da 0 72c140 3c 0 9 db dc dd de df e0 e1 e2 e3 e4 e5 e6 e7 e8 e9 ea eb ec ed ee ef f0 f1 f2 f3 0 72c140 3d 0 9 f4 f5 f6 f7 f8 f9 fa fb fc fd fe ff 100 101 102 103 104 105 106 107 108 109 10a 10b 10c 0 72c140 3e 0 9 10d 10e 10f 110 111 112 113 114 115 116 117 118 119 11a 11b 11c 11d 11e 11f 120 121 122 123 124 125 0 26c140 3f 0 9 126 127 128 129 12a 12b 0 2524143 0 0 1 0 1 1 10 1 0 1 4 b 0 0 7 c 0 0 7 d 0 0 7 e 0 0 7 1 4 15 0 0 7 16 0 0 7 17 0 0 7 18 0 0 7 1 4 1f 0 0 7 20 0 0 7 21 0 0 7 22 0 0 7 1 4 29 0 0 7 2a 0 0 7 2b 0 0 7 2c 0 0 7 0 1 10 33 64 0 9 34 64 0 9 35 64 0 9 36 64 0 9 37 64 0 9 38 64 0 9 39 64 0 9 3a 64 0 9 3b 64 0 9 3c 64 0 9 3d 64 0 9 3e 64 0 9 3f 18 0 9 40 0 0 9 41 0 0 9 42 0 0 9 0\n\
# A read chunk of nine segments: eight Read Requests go out, and the ninth once a response is complete.\n\
open 16\n\
up\n\
down\n\
submit 72/1,1,1,1,1,1,1,1,1/-/- 7 : 8 0 2 0 0 9 2 9 61626364 65666768 69000000\n\
# The Send; eight Read Requests, and their responses of one byte; one more.\n\
up-bytes = 340\n\
down-bytes = 416\n\
up-bytes = 192\n\
counts = [1, 1, 1, 1, 0, 2]\n\
down-bytes = 52\n\
up-bytes = 24\n\
answer : 0*6 = (84, Inline)\n\
";

#[test]
fn chunks(rt: HostRuntime) {
    run(&rt, rt.alloc(), &[1, 65536], CHUNKS);
}

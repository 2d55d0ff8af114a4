//! The calls of which plans are made, and what is planned.

/// A call, a form, the sizes of Sends up and down, and what is planned (`Shape` of `plans.rt`), or the bytes that are needed and the room. The
/// sizes: a header has 28 bytes, a read entry 24, a write chunk 8 and 16 for each segment, a reply chunk 4 and 16 for
/// each (RFC 8166 section 4.3). Before the data of WRITE stand 72 bytes, before the path of SYMLINK 88.
pub(crate) static PLANS: &str = "\
# 28 + 72 + 924 = 1024; of 925 bytes the pad ends at 928.\n\
write 924 | auto | 1024 | 1024 | Shape(996, None, [], 0, None, None)\n\
write 925 | auto | 1024 | 1024 | Shape(72, Some(72), [925], 925, None, None)\n\
write 925 | inline | 1024 | 1024 | (1028, 1024)\n\
# 28 + 128 + 868 = 1024.\n\
read 868 | auto | 1024 | 1024 | Shape(64, None, [], 0, None, None)\n\
read 869 | auto | 1024 | 1024 | Shape(64, None, [], 0, Some([869]), None)\n\
# 28 + 1068 = 1096, and no item: all in a chunk. The reply has 108 bytes.\n\
mnt 1024 | auto | 1024 | 1024 | Shape(0, Some(0), [1068], 1068, None, None)\n\
# Each form with each procedure that has an item.\n\
write 5 | auto | 1024 | 1024 | Shape(80, None, [], 0, None, None)\n\
write 5 | inline | 1024 | 1024 | Shape(80, None, [], 0, None, None)\n\
write 5 | chunk | 1024 | 1024 | Shape(72, Some(72), [5], 5, None, None)\n\
write 5 | long | 1024 | 1024 | Shape(0, Some(0), [80], 80, None, Some([160]))\n\
symlink 1000 | auto | 1024 | 1024 | Shape(88, Some(88), [1000], 1000, None, None)\n\
symlink 5 | inline | 1024 | 1024 | Shape(96, None, [], 0, None, None)\n\
symlink 5 | chunk | 1024 | 1024 | Shape(88, Some(88), [5], 5, None, None)\n\
symlink 5 | long | 1024 | 1024 | Shape(0, Some(0), [96], 96, None, Some([304]))\n\
read 40000 | auto | 1024 | 1024 | Shape(64, None, [], 0, Some([40000]), None)\n\
read 5 | inline | 1024 | 1024 | Shape(64, None, [], 0, None, None)\n\
read 5 | chunk | 1024 | 1024 | Shape(64, None, [], 0, Some([5]), None)\n\
read 5 | long | 1024 | 1024 | Shape(0, Some(0), [64], 64, None, Some([136]))\n\
readlink 0 | auto | 1024 | 1024 | Shape(52, None, [], 0, Some([1024]), None)\n\
readlink 0 | inline | 1024 | 1024 | Shape(52, None, [], 0, None, None)\n\
readlink 0 | chunk | 1024 | 1024 | Shape(52, None, [], 0, Some([1024]), None)\n\
readlink 0 | long | 1024 | 1024 | Shape(0, Some(0), [52], 52, None, Some([1144]))\n\
# And one that has none.\n\
getattr 0 | chunk | 1024 | 1024 | Shape(52, None, [], 0, None, None)\n\
getattr 0 | long | 1024 | 1024 | Shape(0, Some(0), [52], 52, None, Some([112]))\n\
# Payloads of 1056768 bytes, which are 16 * 66048, and one more.\n\
zeros 1056768 | long | 1024 | 1024 | Shape(0, Some(0), [66048, 66048, 66048, 66048, 66048, 66048, 66048, 66048, 66048, 66048, 66048, 66048, 66048, 66048, 66048, 66048], 1056768, None, Some([32]))\n\
zeros 1056769 | long | 1024 | 1024 | (1056769, 1056768)\n\
zeros 1056769 | inline | 1024 | 1024 | (1056769, 1056768)\n\
zeros 1056769 | 0/-/1056769/- | 1024 | 1024 | (1056769, 1056768)\n\
write 1056697 | auto | 1024 | 1024 | (1056772, 1056768)\n\
# Offers of 1056768 bytes and one more, in sums that pass 2^32, and whose Send passes 1024: 28 + 8 + 61 * 16 + 52.\n\
getattr 0 | 0/-/1056768/- | 1024 | 1024 | Shape(52, None, [], 0, Some([1056768]), None)\n\
getattr 0 | 0/-/1056768,1/- | 1024 | 1024 | (1056769, 1056768)\n\
getattr 0 | 40/1/528384/528383 | 1024 | 1024 | Shape(40, Some(40), [1], 1, Some([528384]), Some([528383]))\n\
getattr 0 | 40/2/528384/528383 | 1024 | 1024 | (1056769, 1056768)\n\
getattr 0 | 0/-/4294967295,4294967295/4294967295 | 1024 | 1024 | (12884901885, 1056768)\n\
getattr 0 | 0/-/0,0,0,0,0,0,0,0,0,0,0,0,0,0,0,0,0,0,0,0,0,0,0,0,0,0,0,0,0,0,0,0,0,0,0,0,0,0,0,0,0,0,0,0,0,0,0,0,0,0,0,0,0,0,0,0,0,0,0,0,0/- | 1024 | 1024 | (1064, 1024)\n\
# A chunk without segments; a read chunk within the payload and past its end.\n\
getattr 0 | 0/-//- | 1024 | 1024 | Shape(52, None, [], 0, Some([]), None)\n\
write 5 | 72/6/-/- | 1024 | 1024 | Shape(72, Some(72), [6], 6, None, None)\n\
getattr 0 | 100/4/-/- | 1024 | 1024 | Shape(52, Some(100), [4], 4, None, None)\n\
# Larger Sends, each direction by itself.\n\
write 1948 | auto | 2048 | 1024 | Shape(2020, None, [], 0, None, None)\n\
write 1949 | auto | 2048 | 1024 | Shape(72, Some(72), [1949], 1949, None, None)\n\
read 1892 | auto | 1024 | 2048 | Shape(64, None, [], 0, None, None)\n\
read 1893 | auto | 1024 | 2048 | Shape(64, None, [], 0, Some([1893]), None)\n\
";

/// Chunks of full segments, of 66048 bytes, and one with the rest. A WRITE of 1048576 bytes takes 28 + 16 * 24 + 72 = 484 bytes of
/// Send; in one less, all of it goes in the chunk. A READ of as many takes 28 + 8 + 16 * 16 + 64 = 356, and its reply has 1048704.
pub(crate) static SEGMENTS: &str = "\
zeros 66049 | long | 1024 | 1024 | Shape(0, Some(0), [66048, 1], 66049, None, Some([32]))\n\
write 1048576 | auto | 484 | 1024 | Shape(72, Some(72), [66048, 66048, 66048, 66048, 66048, 66048, 66048, 66048, 66048, 66048, 66048, 66048, 66048, 66048, 66048, 57856], 1048576, None, None)\n\
write 1048576 | auto | 483 | 1024 | Shape(0, Some(0), [66048, 66048, 66048, 66048, 66048, 66048, 66048, 66048, 66048, 66048, 66048, 66048, 66048, 66048, 66048, 57928], 1048648, None, None)\n\
write 1056696 | auto | 1024 | 1024 | Shape(72, Some(72), [66048, 66048, 66048, 66048, 66048, 66048, 66048, 66048, 66048, 66048, 66048, 66048, 66048, 66048, 66048, 65976], 1056696, None, None)\n\
read 66048 | auto | 1024 | 1024 | Shape(64, None, [], 0, Some([66048]), None)\n\
read 66049 | auto | 1024 | 1024 | Shape(64, None, [], 0, Some([66048, 1]), None)\n\
read 1048576 | auto | 356 | 1024 | Shape(64, None, [], 0, Some([66048, 66048, 66048, 66048, 66048, 66048, 66048, 66048, 66048, 66048, 66048, 66048, 66048, 66048, 66048, 57856]), None)\n\
read 1048577 | auto | 1024 | 1024 | Shape(64, None, [], 0, Some([66048, 66048, 66048, 66048, 66048, 66048, 66048, 66048, 66048, 66048, 66048, 66048, 66048, 66048, 66048, 57856]), None)\n\
read 1048577 | long | 1024 | 1024 | Shape(0, Some(0), [64], 64, None, Some([66048, 66048, 66048, 66048, 66048, 66048, 66048, 66048, 66048, 66048, 66048, 66048, 66048, 66048, 66048, 57984]))\n\
";

// The books that the tests read or change.

// Three dips, (0, 0), (10, 0) and (0, 10), and no cover: the records begin at 0, 15 and 30, the trailer at 45.
pub const DIPS: &[u8] = b"\
    D\x05\0\0\0\0\0\0\0\0\0\0\0\0\0\
    D\x06\0\x0a\0\0\0\0\0\0\0\0\0\0\0\
    D\x07\0\0\0\0\0\0\0\x0a\0\0\0\0\0\
    \x2d\0\0\0\x03\0\xe7\x07PZYB";

// A cover and a record of each kind: they begin at 4, 23 and 38, the trailer at 46.
pub const MIXED: &[u8] = b"\
    WEIR\
    L\x01\x02\0\0\0\0\0\0\xf8\x3f\0\0\0\0\0\0\x04\xc0\
    D\x03\0\x18\xfc\xff\xff\x02\0\xd0\x07\0\0\x01\0\
    N\xff\xff\x04RAIN\
    \x2a\0\0\0\x03\0\x97\x08PZYB";

// The smallest book: a trailer alone.
pub const EMPTY: &[u8] = b"\0\0\0\0\0\0\x6c\x07PZYB";

// The largest book is this record 3,276 times and this trailer.
pub const DIP: &[u8] = b"D\x05\0\x40\x42\x0f\0\xe8\x03\xc0\xbd\xf0\xff\xe8\x03";

pub const DIP_COUNT: usize = 3276;

pub const TRAILER: &[u8] = b"\xf4\xbf\0\0\xcc\x0c\xe7\x07PZYB";

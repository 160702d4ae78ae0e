// The table: an entry for each byte from 0 to "f", its value as a hex digit, or 16.

// How many entries it has.
pub const HEX_ENTRIES: usize = 103;

pub static VALUES: [u8; HEX_ENTRIES] = [
    // no digit before "0"
    16, 16, 16, 16, 16, 16, 16, 16, 16, 16, 16, 16, 16, 16, 16, 16, 16, 16, 16, 16, 16, 16, 16, 16,
    16, 16, 16, 16, 16, 16, 16, 16, 16, 16, 16, 16, 16, 16, 16, 16, 16, 16, 16, 16, 16, 16, 16, 16,
    0, // 0
    1, // 1
    2, // 2
    3, // 3
    4, // 4
    5, // 5
    6, // 6
    7, // 7
    8, // 8
    9, // 9
    // none between "9" and "A"
    16, 16, 16, 16, 16, 16, 16, 10, // A
    11, // B
    12, // C
    13, // D
    14, // E
    15, // F
    // none between "F" and "a"
    16, 16, 16, 16, 16, 16, 16, 16, 16, 16, 16, 16, 16, 16, 16, 16, 16, 16, 16, 16, 16, 16, 16, 16,
    16, 16, 10, // a
    11, // b
    12, // c
    13, // d
    14, // e
    15, // f
];

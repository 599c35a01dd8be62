//! Blocks and tails of bytes, against the plain definition of their masks.

use mm_bytes::{Classes, class_block, class_tail, dollars_block, dollars_tail};

/// The classes of the bytes, and the dollar signs among them, a byte at a time.
fn defined_masks(bytes: &[u8]) -> (Classes, u64) {
    let mut classes = Classes { white: 0, bad: 0 };
    let mut dollars = 0u64;
    for (i, byte) in bytes.iter().take(64).enumerate() {
        let bit = 1u64.wrapping_shl(i as u32);
        match *byte {
            b'\t' | b'\n' | 0x0C | b'\r' | b' ' => classes.white |= bit,
            b'$' => dollars |= bit,
            b'!'..=b'~' => {}
            _ => classes.bad |= bit,
        }
    }
    (classes, dollars)
}

/// The same by the calls for a block or for a tail.
fn masks(bytes: &[u8]) -> (Classes, u64) {
    match bytes.first_chunk::<64>() {
        Some(block) => (class_block(block), dollars_block(block)),
        None => (class_tail(bytes), dollars_tail(bytes)),
    }
}

/// Bytes of all classes, among them the first and the last of each stretch of a class.
static SAMPLE: [u8; 23] = [
    0x00, 0x08, b'\t', b'\n', 0x0B, 0x0C, b'\r', 0x0E, 0x1F, b' ', b'!', b'#', b'$', b'%', b'0',
    b'Z', b'a', b'~', 0x7F, 0x80, 0xFF, b' ', b'$',
];

/// These bytes again and again. No two blocks of 64 are alike.
fn mixed() -> [u8; 194] {
    let mut bytes = [0u8; 194];
    for i in 0..194 {
        bytes[i] = SAMPLE[i % 23];
    }
    bytes
}

/// Whether the blocks of at most 191 bytes, and the tail after them, have the plain masks.
fn have_defined_masks(bytes: &[u8]) -> bool {
    for block in 0..3 {
        let from = bytes.len().min(block * 64);
        let to = bytes.len().min(block * 64 + 64);
        if masks(&bytes[from..to]) != defined_masks(&bytes[from..to]) {
            return false;
        }
    }
    true
}

/// Every length up to two blocks and two bytes, from every place in a block.
#[test]
fn blocks_and_tails_have_the_plain_masks(rt: HostRuntime) {
    let bytes = mixed();
    for from in 0..64 {
        for len in 0..131 {
            assert!(&rt;
                have_defined_masks(&bytes[from..from + len]),
                "{len} bytes from {from}"
            );
        }
    }
}

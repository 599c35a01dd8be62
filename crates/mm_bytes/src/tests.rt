//! Rows of bytes, of every length up to a few blocks.

use crate::{Classes, class_block, class_tail, count_lf, dollars_block, dollars_tail, first_bad};
use std::alloc::AllocError;

#[test]
fn knows_rows(rt: HostRuntime) {
    let row: &[u8] = b"\x0B\x0C\x20\x7E\x7F\x80\x09\x0A\x0D";
    assert_eq!(rt;
        class_tail(row),
        Classes {
            white: 454,
            bad: 49
        }
    );
    assert_eq!(rt; first_bad(row), Some(0));
    assert_eq!(rt; count_lf(row), 1);
    assert_eq!(rt; class_tail(b""), Classes { white: 0, bad: 0 });
    let spaces = Classes {
        white: 18_446_744_073_709_551_615,
        bad: 0,
    };
    assert_eq!(rt; class_block(&[b' '; 64]), spaces);
    assert_eq!(rt; dollars_tail(b"a$$b$"), 22);
    assert_eq!(rt; dollars_tail(b""), 0);
    assert_eq!(rt; dollars_block(&[b'$'; 64]), 18_446_744_073_709_551_615);
}

/// Line feeds of every length, and one other byte among them at every place.
#[test]
fn counts_every_length(rt: HostRuntime) -> Result<(), AllocError> {
    for len in 0..194 {
        let mut bytes = vec![in rt.alloc(); b'\n'; len]?;
        assert_eq!(rt; count_lf(&bytes), len);
        assert_eq!(rt; first_bad(&bytes), None);
        for place in 0..len {
            bytes[place] = 0x7F;
            assert_eq!(rt; count_lf(&bytes), len - 1);
            assert_eq!(rt; first_bad(&bytes), Some(place));
            bytes[place] = b'\n';
        }
    }
    Ok(())
}

/// Each byte in each lane has the class that it has in a tail.
#[test]
fn knows_blocks_as_tails(rt: HostRuntime) {
    for byte in 0..=255u8 {
        let one = class_tail(&[byte]);
        for lane in 0..64 {
            let mut block = [b'a'; 64];
            block[lane] = byte;
            let want = Classes {
                white: one.white << lane,
                bad: one.bad << lane,
            };
            assert_eq!(rt; class_block(&block), want);
            assert_eq!(rt; dollars_block(&block), dollars_tail(&[byte]) << lane);
        }
    }
}

//! Numbers in the letters of compressed proofs.

use mm_proof::number;
use std::rt::HostRuntime;

/// Letters of numbers, and their values.
const VALUES: [(&[u8], Option<u32>); 19] = [
    (b"A", Some(1)),
    (b"T", Some(20)),
    (b"UA", Some(21)),
    (b"UT", Some(40)),
    (b"VA", Some(41)),
    (b"YT", Some(120)),
    (b"UUA", Some(121)),
    (b"YYT", Some(620)),
    (b"XUXXWWXVUXVXO", Some(4_294_967_295)),
    (b"XUXXWWXVUXVXP", None),
    (b"", None),
    (b"U", None),
    (b"Z", None),
    (b"AA", None),
    (b"AU", None),
    (b"UZ", None),
    (b"a", None),
    (b"?", None),
    (b"UA ", None),
];

#[test]
fn numbers_have_their_values(rt: HostRuntime) {
    for (letters, value) in VALUES {
        assert!(&rt; number(letters) == value);
    }
    let mut long = [b'Y'; 100];
    long[99] = b'A';
    assert!(&rt; number(&long) == None);
}

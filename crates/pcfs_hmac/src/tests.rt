use crate::{Mac, mac};
use std::test::Fail;

#[derive(Drop)]
struct Vector {
    key: &'static [u8],
    text: &'static [u8],
    // The tag, or its first bytes.
    tag: &'static [u8],
}

// RFC 4231, sections 4.2 to 4.8. The fifth has the first 16 bytes of its tag alone.
const VECTORS: [Vector; 7] = [
    Vector {
        key: &[0x0b; 20],
        text: b"Hi There",
        tag: b"\xb0\x34\x4c\x61\xd8\xdb\x38\x53\x5c\xa8\xaf\xce\xaf\x0b\xf1\x2b\x88\x1d\xc2\x00\xc9\x83\x3d\xa7\x26\xe9\x37\x6c\x2e\x32\xcf\xf7",
    },
    Vector {
        key: b"Jefe",
        text: b"what do ya want for nothing?",
        tag: b"\x5b\xdc\xc1\x46\xbf\x60\x75\x4e\x6a\x04\x24\x26\x08\x95\x75\xc7\x5a\x00\x3f\x08\x9d\x27\x39\x83\x9d\xec\x58\xb9\x64\xec\x38\x43",
    },
    Vector {
        key: &[0xaa; 20],
        text: &[0xdd; 50],
        tag: b"\x77\x3e\xa9\x1e\x36\x80\x0e\x46\x85\x4d\xb8\xeb\xd0\x91\x81\xa7\x29\x59\x09\x8b\x3e\xf8\xc1\x22\xd9\x63\x55\x14\xce\xd5\x65\xfe",
    },
    Vector {
        key: b"\x01\x02\x03\x04\x05\x06\x07\x08\x09\x0a\x0b\x0c\x0d\x0e\x0f\x10\x11\x12\x13\x14\x15\x16\x17\x18\x19",
        text: &[0xcd; 50],
        tag: b"\x82\x55\x8a\x38\x9a\x44\x3c\x0e\xa4\xcc\x81\x98\x99\xf2\x08\x3a\x85\xf0\xfa\xa3\xe5\x78\xf8\x07\x7a\x2e\x3f\xf4\x67\x29\x66\x5b",
    },
    Vector {
        key: &[0x0c; 20],
        text: b"Test With Truncation",
        tag: b"\xa3\xb6\x16\x74\x73\x10\x0e\xe0\x6e\x0c\x79\x6c\x29\x55\x55\x2b",
    },
    Vector {
        key: &[0xaa; 131],
        text: b"Test Using Larger Than Block-Size Key - Hash Key First",
        tag: b"\x60\xe4\x31\x59\x1e\xe0\xb6\x7f\x0d\x8a\x26\xaa\xcb\xf5\xb7\x7f\x8e\x0b\xc6\x21\x37\x28\xc5\x14\x05\x46\x04\x0f\x0e\xe3\x7f\x54",
    },
    Vector {
        key: &[0xaa; 131],
        text: b"This is a test using a larger than block-size key and a larger than block-size data. The key needs to be hashed before being used by the HMAC algorithm.",
        tag: b"\x9b\x09\xff\xa7\x1b\x94\x2f\xcb\x27\x63\x5f\xbc\xd5\xb0\xe9\x44\xbf\xdc\x63\x64\x4f\x07\x13\x93\x8a\x7f\x51\x53\x5c\x3a\x35\xe2",
    },
];

#[test]
fn vectors_of_rfc_4231(rt: HostRuntime) -> Result<(), Fail> {
    for vector in VECTORS {
        let tag = mac(vector.key, vector.text);
        let start = tag.get(..vector.tag.len()).ok_or("a long tag")?;
        assert_eq!(rt; start, vector.tag, "at {:?}", vector.text);
    }
    Ok(())
}

const TEXT: &[u8] = b"The quick brown fox jumps over the lazy dog";

// Each key is the bytes 0, 1, 2 and so on. The tags were computed by Python's `hmac`, and those of
// the keys that are not empty also by `openssl dgst`, which agreed.
#[test]
fn keys_up_to_a_block_and_past_it(rt: HostRuntime) -> Result<(), Fail> {
    let mut key = [0u8; 65];
    for i in 0..65 {
        key[i] = i as u8;
    }
    let tags: [(usize, &[u8]); 3] = [
        (
            0,
            b"\xfb\x01\x1e\x61\x54\xa1\x9b\x9a\x4c\x76\x73\x73\xc3\x05\x27\x5a\x5a\x69\xe8\xb6\x8b\x0b\x4c\x92\x00\xc3\x83\xdc\xed\x19\xa4\x16",
        ),
        (
            64,
            b"\x49\x03\xb1\xfc\x9f\x41\xbc\x1a\xbe\x3f\xf7\x11\x9c\x4e\x52\x3b\x91\x28\x8b\x11\xc0\x3d\xab\x1e\x97\x58\x16\x15\x0d\xf3\x81\x44",
        ),
        (
            65,
            b"\x8e\x94\xe4\x5c\xd6\x6c\x66\x0f\x34\xf8\x60\x00\x65\xaf\xcf\x80\xfe\x2e\xf7\x0d\xf6\xc1\x6b\x95\x10\x17\x53\xa6\xe1\xaa\xb9\x4a",
        ),
    ];
    for (len, tag) in tags {
        let key = key.get(..len).ok_or("a long key")?;
        assert_eq!(rt; mac(key, TEXT).as_slice(), tag, "at {len}");
    }
    Ok(())
}

#[test]
fn a_copy_goes_on_by_itself(rt: HostRuntime) {
    let mut first = Mac::new(b"key");
    first.update(b"The quick ");
    let mut second = first.copy();
    first.update(b"brown fox");
    first.update(b" jumps over the lazy dog");
    second.update(b"red fox");
    assert_eq!(rt; first.finish(), mac(b"key", TEXT));
    assert_eq!(rt; second.finish(), mac(b"key", b"The quick red fox"));
}

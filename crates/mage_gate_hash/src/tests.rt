// Against bytes that another program made. In Python, with the labels a = bytes(range(16, 32)), b =
// bytes(range(32, 48)) and r = bytes(range(1, 17)):
//
//   first = lambda message: hashlib.sha256(message).digest()[:16].hex(' ')
//   xor = lambda a, b: bytes(x ^ y for x, y in zip(a, b))
//   place = lambda j: (0x0304).to_bytes(2, 'big') + j.to_bytes(8, 'big')
//   hash = lambda label, j: first(b'\2' + label + place(j))
//   hash(a, j), hash(xor(a, r), j), hash(b, k), hash(xor(b, r), k)
//
// with j = 0x05060708090a0b0c and k = j + 1.
ghost use Rattle.std.specs.Prelude.{◌<◌};

use super::*;
use mage_label::Label;

const A_ZERO: [u8; 16] = [
    0x5d, 0x5f, 0xea, 0xcf, 0x72, 0x4e, 0x2f, 0x28, 0xf2, 0xf8, 0xc5, 0x17, 0x01, 0x8e, 0x61, 0xfd,
];

const A_ONE: [u8; 16] = [
    0xa0, 0x67, 0x50, 0x45, 0x06, 0xa4, 0xb8, 0x4d, 0x17, 0x27, 0x99, 0x57, 0x15, 0x0b, 0xad, 0x45,
];

const B_ZERO: [u8; 16] = [
    0x5f, 0xe7, 0x10, 0x06, 0xb4, 0x8f, 0xb7, 0x21, 0x22, 0xaf, 0x6e, 0x4f, 0x33, 0x5e, 0x93, 0x28,
];

const B_ONE: [u8; 16] = [
    0xf1, 0x7d, 0xe4, 0x6a, 0xf9, 0x11, 0x43, 0xe0, 0xbf, 0x70, 0xca, 0x21, 0x01, 0x17, 0x06, 0xe5,
];

fn counted(from: u8) -> Label
    requires { from < 200 }
{
    let mut bytes = [0; 16];
    for place in 0u8..16 {
        bytes[usize::from(place)] = from + place;
    }
    Label { bytes }
}

#[test]
fn the_bytes_of_another_program(rt: HostRuntime) {
    let j = 0x0506_0708_090a_0b0c;
    let hashes = gate_hashes(counted(16), counted(32), counted(1), 0x0304, j, j + 1);
    assert_eq!(rt; hashes.a_zero.bytes, A_ZERO);
    assert_eq!(rt; hashes.a_one.bytes, A_ONE);
    assert_eq!(rt; hashes.b_zero.bytes, B_ZERO);
    assert_eq!(rt; hashes.b_one.bytes, B_ONE);
}

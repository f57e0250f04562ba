// Bits of numbers, and numbers of bits.
use super::*;
use mage_base::Memory;

#[test]
fn gives_bits(rt: HostRuntime) -> Result<(), Memory> {
    let alloc = rt.alloc();
    let all: [bool; 128] = [true; 128];
    let table: [(u128, u8, &[bool]); 5] = [
        (5, 4, &[true, false, true, false]),
        (6, 3, &[false, true, true]),
        (7, 2, &[true, true]),
        (5, 0, &[]),
        (u128::MAX, 128, &all),
    ];
    for (value, count, wanted) in table {
        assert_eq!(rt;
            bits_of(alloc, value, count)?.as_slice(),
            wanted,
            "at {value}"
        );
    }
    let wide = bits_of(alloc, 1, 130)?;
    assert_eq!(rt; wide.len(), 130);
    assert_eq!(rt; wide.iter().filter(|bit| **bit).count(), 1);
    assert!(rt; wide[0]);
    Ok(())
}

#[test]
fn gives_numbers(rt: HostRuntime) {
    let all: [bool; 128] = [true; 128];
    let table: [(&[bool], u128); 5] = [
        (&[], 0),
        (&[false, false], 0),
        (&[true, false, true, false], 5),
        (&[false, true, true], 6),
        (&all, u128::MAX),
    ];
    for (bits, wanted) in table {
        if bits.len() <= 128 {
            assert_eq!(rt; number_of(bits), wanted);
        }
    }
    laws_of_bits();
    laws_of_modular_arithmetic();
}

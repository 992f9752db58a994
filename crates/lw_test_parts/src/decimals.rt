// Decimals read with a limit of a million units, and numbers of millionths printed.

use lw_fixed::DecimalFault::{Fine, Large, Negative, Shape};
use lw_fixed::{DecimalFault, Micro};
use std::process::Abort;

const READ: [(&[u8], Result<Micro, DecimalFault>); 19] = [
    (b".5", Ok(Micro(500_000))),
    (b"1.", Ok(Micro(1_000_000))),
    (b"0.9999990", Ok(Micro(999_999))),
    (b"+0", Ok(Micro(0))),
    (b"-0", Ok(Micro(0))),
    (b"0.0000001", Err(Fine)),
    (b"1000000", Err(Large)),
    (b"-1", Err(Negative)),
    (b".", Err(Shape)),
    (b"1e3", Err(Shape)),
    (b"", Err(Shape)),
    (b"-", Err(Shape)),
    (b"+-1", Err(Shape)),
    (b"1.2.3", Err(Shape)),
    (b"000000000000000000000000000001.9", Ok(Micro(1_900_000))),
    (b"36893488147419103233", Err(Large)),
    (b"-1000000.0000001", Err(Large)),
    (b"-0.0000001", Err(Fine)),
    (b"999999.999999", Ok(Micro(999_999_999_999))),
];

const PRINTED: [(Micro, &[u8]); 6] = [
    (Micro(1_500_000), b"1.5"),
    (Micro(0), b"0"),
    (Micro(1), b"0.000001"),
    (Micro(10_000_000), b"10"),
    (Micro(100_100), b"0.1001"),
    (Micro(u64::MAX), b"18446744073709.551615"),
];

#[test]
fn texts_are_read(rt: HostRuntime) {
    for (text, answer) in READ {
        assert_eq!(rt; lw_fixed::read(text, 1_000_000), answer);
    }
}

#[test]
fn numbers_are_printed(rt: HostRuntime) {
    for (value, text) in PRINTED {
        assert_printed(&rt, value, text);
    }
}

fn assert_printed(rt: &impl Abort, value: Micro, text: &[u8]) {
    let mut out = [0; 21];
    let length = lw_fixed::print(value, &mut out);
    assert_eq!(rt; &out[..length], text);
}

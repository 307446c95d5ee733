//! Which side sends messages of a type.

use link_streams::{Side, sender_of_type};
use std::process::Abort;
use std::test::Fail;

/// The types, in order from 00 on: `C` of the centre, `B` of the controller, `-` of either or none (3GPP TS 48.049,
/// 8.1.3 and 8.2.2).
const SIDES: &str = "-CBBCBBCBBCBBCBBCBBBB-CB-";

/// Expects the side of a type.
fn expect_side(rt: &impl Abort, number: u8, sign: u8) {
    let found = match sender_of_type(number) {
        Some(Side::Centre) => b'C',
        Some(Side::Controller) => b'B',
        None => b'-',
    };
    assert!(rt; found == sign);
}

#[test]
fn types_say_which_side_sends(rt: HostRuntime) -> Result<(), Fail> {
    for (number, sign) in (0_u8..=24).zip(SIDES.as_bytes()) {
        expect_side(&rt, number, *sign);
    }
    expect_side(&rt, 255, b'-');
    Ok(())
}

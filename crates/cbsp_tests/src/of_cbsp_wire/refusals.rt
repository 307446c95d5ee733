//! Each refusal, in its place, and what the refusals are called.

use crate::of_cbsp_wire::table::expect_rows;
use cbsp_wire::{WireFault, cause};
use std::alloc::{AllocError, Global};
use std::test::Fail;

/// Octets, and why they are refused.
const REFUSED: &str = "
# The frame is looked at first: four octets, and as many more as the length says.
read -> truncated
read 040000 -> truncated
read 07000001 -> truncated
read 0400010000 -> truncated
read 0401000000 -> truncated
read 0700000000 -> trailing octets
# Then the type.
read 07000000 -> cause 04
read 00000000 -> cause 04
# An element past the end.
read 0400000e0e -> truncated
read 040000010e -> truncated
# A mandatory element that is missing, which comes before what is strange.
read 04000000 -> cause 05
read 040000060e1112020010 -> cause 05
read 040000020f01 -> cause 05
# An element that isn't of the message, as the last octet too.
read 040000100e111202001004000501000100010f01 -> cause 00
read 0400000f0e111202001004000501000100010f -> cause 00
# The channel indicator in its place.
read 040000100e111202001004000501000100011201 -> read
# An element that comes twice.
read 040000110e111202001004000501000100010e1112 -> cause 01
read 040000110e11120200100400050100010001020010 -> cause 01
read 040000160e111202001004000501000100010400050100010001 -> cause 01
# One that comes three times, and one that comes again past an element that isn't of the message.
read 040000140e11120e11120e11120200100400050100010001 -> cause 01
read 040000130e111202001004000501000100010f010e1112 -> cause 00
# A list with no discriminator, no items, a part of an item, another discriminator, a cell twice.
read 040000090e1112020010040000 -> cause 01
read 0400000a0e111202001004000101 -> cause 01
read 0400000d0e111202001004000401000100 -> cause 01
read 0400000f0e1112020010040006010001000100 -> cause 01
read 0400000e0e11120200100400050000010001 -> cause 01
read 0400000e0e11120200100400050200010001 -> cause 01
read 040000120e1112020010040009010001000100010001 -> cause 01
# Replies with failures and completed broadcasts, in any order.
read 0300000f0e1112030010090006010001000106 -> read
read 0600001a08000801000100010003000900060100010001060200100e1112 -> read
read 030000060e1112030010 -> cause 05
# Two failures: each with its discriminator, one discriminator for both, another one at the second, a cell twice.
read 030000150e111203001009000c010001000106010001000206 -> read
read 030000140e111203001009000b0100010001060001000206 -> cause 01
read 060000150e111202001009000c010001000106020001000206 -> cause 01
read 030000150e111203001009000c010001000106010001000106 -> cause 01
# Elements of other replies.
read 0200000f0e1112030010090006010001000106 -> cause 00
read 040000190e111202001004000501000100010800080100010001000300 -> cause 00
read 050000090e1112020010030010 -> cause 00
";

#[test]
fn octets_are_refused_at_their_first_fault(rt: HostRuntime) -> Result<(), Fail> {
    expect_rows(&rt, rt.alloc(), REFUSED, 38)
}

/// The texts of the refusals.
fn texts_in(alloc: Global) -> Result<String, AllocError> {
    let unknown = WireFault::Cause(cause::UNRECOGNISED_MESSAGE);
    format!(in alloc;
        "{}; {}; {unknown}; {}",
        WireFault::Truncated,
        WireFault::TrailingBytes,
        WireFault::Refused
    )
}

/// The octets of causes are those of 3GPP TS 48.049, 8.2, Cause.
#[test]
fn each_refusal_has_its_octet_or_text(rt: HostRuntime) -> Result<(), AllocError> {
    let causes = [
        cause::PARAMETER_NOT_RECOGNISED,
        cause::PARAMETER_VALUE_INVALID,
        cause::MESSAGE_REFERENCE_NOT_IDENTIFIED,
        cause::CELL_IDENTITY_NOT_VALID,
        cause::UNRECOGNISED_MESSAGE,
        cause::MISSING_MANDATORY_ELEMENT,
        cause::BSC_CAPACITY_EXCEEDED,
        cause::CELL_MEMORY_EXCEEDED,
        cause::BSC_MEMORY_EXCEEDED,
        cause::CELL_BROADCAST_NOT_OPERATIONAL,
        cause::EXTENDED_CHANNEL_NOT_SUPPORTED,
        cause::MESSAGE_REFERENCE_ALREADY_USED,
    ];
    let octets = [0, 1, 2, 3, 4, 5, 6, 7, 8, 0x0A, 0x0C, 0x0D];
    let texts = texts_in(rt.alloc())?;
    let are_right = texts.as_str()
        == "the message is cut off; octets stand after the message; refused with cause 4; out of memory";
    drop(texts);
    assert!(rt; causes == octets);
    assert!(rt; are_right);
    Ok(())
}

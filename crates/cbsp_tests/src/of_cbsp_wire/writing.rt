//! A message is appended to what a vector has.

use cbs_page::Serial;
use cbsp_wire::{Cells, Counts, Message, write_in};
use std::test::Fail;

#[test]
fn octets_are_appended_where_there_is_room(rt: HostRuntime) -> Result<(), Fail> {
    let alloc = rt.alloc();
    let mut out = Vec::with_capacity(alloc, 1600)?;
    out.push(0xFF)?;
    let message = Message::WriteDone {
        id: 4370,
        new_serial: Serial::of(0x0010),
        old_serial: None,
        completed: Counts {
            list: Vec::new(alloc),
        },
        cells: Cells {
            list: Vec::new(alloc),
        },
        channel: None,
    };
    write_in(&message, &mut out);
    drop(message);
    let expected = [
        0xFF, 0x02, 0x00, 0x00, 0x06, 0x0E, 0x11, 0x12, 0x03, 0x00, 0x10,
    ];
    assert_eq!(rt; out.as_slice(), expected.as_slice());
    Ok(())
}

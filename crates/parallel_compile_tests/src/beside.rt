//! A piece that is taken beside an order.

use crate::desks::*;
use crate::gate::{Crossing, Manner};
use crate::streams::records_with;
use bsc_table::CellRecord;
use order_desk::{Desk, Pass};
use std::process::Abort;
use std::sync::Wait;
use std::test::Fail;
use std::thread;
use std::thread::Threads;

/// Takes a piece of the first cell, and says whether there is one.
fn take_piece<T: AllocGlobal + Wait>(rt: &T, desk: &Desk, gate: &Crossing) -> bool {
    desk.piece(rt, rt.alloc(), cell_of(1), 0, 64, gate).is_ok()
}

/// Takes a piece of the first cell while an order is carried out in the second: each waits inside its cell until the
/// other is inside, too.
fn expect_both<T: AllocGlobal + Threads + Wait + Abort + Sync>(
    rt: &T,
    desk: &Desk,
    pass: &mut Pass,
    octets: &[u8],
    gate: &Crossing,
) {
    let (taken, replied) = thread::join(
        rt,
        || take_piece(rt, desk, gate),
        || order(rt, desk, pass, octets, gate),
    );
    assert_eq!(rt; (taken, replied), (true, true));
}

/// The records of a desk at which both was done, each at the gate.
fn settled_at<T: AllocGlobal + Threads + Wait + Abort + Sync>(
    rt: &T,
    gate: &Crossing,
) -> Result<Vec<CellRecord>, Fail> {
    let octets = order_of(rt.alloc(), FRONT_OF_SECOND)?;
    let desk = desk_of(rt.alloc(), 2, 10)?;
    let mut pass = desk.pass();
    expect_both(rt, &desk, &mut pass, &octets, gate);
    records_with(rt.alloc(), desk, Vec::new(rt.alloc()), pass)
}

#[test]
fn a_session_orders_while_a_piece_of_another_cell_is_taken(rt: HostRuntime) -> Result<(), Fail> {
    let gate = Crossing::new(rt.alloc(), Manner::Meet)?;
    let records = settled_at(&rt, &gate)?;
    let told = gate.told(rt.alloc())?;
    assert_eq!(&rt; told.as_str(), ", in both at once");
    let entries = records.iter().map(|record| record.log().len());
    assert!(&rt; entries.eq([0, 1]));
    Ok(())
}

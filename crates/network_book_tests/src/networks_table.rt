//! What the rows of a table of network books mean: a word that says what is done, and the rows of a book, in which `|`
//! is a line feed, and `%` with two digits an octet.
//!
//! What the next rows speak of:
//!
//! - `before ROWS`: these rows stand before those that follow, behind those of earlier rows; `before` alone: none do;
//! - `cells FROM END`: and rows that declare the cells of LAC 1 and these CI, the last one left out;
//! - `times NUMBER ROWS`: and these rows so many times.
//!
//! What comes of a network book:
//!
//! - `groups ROWS`: how many groups it has, or its fault;
//! - `group NUMBER ROWS`: the cells of this group's book, and the messages of its session, as served.rt says, or why
//!   it has none;
//! - `line_feeds NUMBER`: how many groups a book of so many line feeds has, or its fault, and how many octets are left.
//!
//! The first two are asked of a reader's octets, for the one group, and of the network that is read once for all of
//! them, and both have to say so.

use crate::served::{tell_cells, tell_served};
use alert_book::{Book, BookFault, Network, count_groups, read_group};
use device_ends::Source;
use device_ends::memory::MemoryReader;
use std::alloc::{AllocGlobal, Global};
use std::process::Abort;
use std::test::Fail;
use std::thread::Threads;
use test_support::Row;

/// How many octets a read gives.
const MOST: usize = 0x1_0000;

/// Adds the octets that a table writes.
fn add_rows(octets: &mut Vec<u8>, text: &str) -> Result<(), Fail> {
    for (place, part) in text.split('%').enumerate() {
        let mut plain = part;
        if place > 0 {
            let (digits, rest) = part
                .split_at_checked(2)
                .ok_or("two digits follow a percent sign")?;
            octets.push(u8::from_str_radix(digits, 16)?)?;
            plain = rest;
        }
        for octet in plain.bytes() {
            octets.push(if octet == b'|' { b'\n' } else { octet })?;
        }
    }
    Ok(())
}

/// Has what a row says of the rows that stand before others. Returns whether it says something of them.
fn set(alloc: Global, before: &mut Vec<u8>, verb: &str, rest: &str) -> Result<bool, Fail> {
    let (number, more) = rest.split_once(' ').unwrap_or((rest, ""));
    match verb {
        "before" if rest.is_empty() => before.clear(),
        "before" => add_rows(before, rest)?,
        "cells" => {
            for ci in number.parse::<u32>()?..more.parse::<u32>()? {
                add_rows(before, format!(in alloc; "cell,1,{ci}|")?.as_str())?;
            }
        }
        "times" => {
            for _ in 0..number.parse::<u16>()? {
                add_rows(before, more)?;
            }
        }
        _ => return Ok(false),
    }
    Ok(true)
}

/// Tells how many groups a network book has, or its fault.
fn tell_count(told: &mut String, count: Result<u16, BookFault>) -> Result<(), Fail> {
    match count {
        Ok(groups) => write!(told, "{groups}")?,
        Err(fault) => write!(told, "{fault}")?,
    }
    Ok(())
}

/// Tells a book: its cells, and what its session sends.
fn tell_book(alloc: Global, told: &mut String, book: &Book) -> Result<(), Fail> {
    tell_cells(told, book.cells())?;
    tell_served(alloc, told, book)
}

/// Tells the book of a group that was read by itself, or why it has none.
fn tell_group<T: AllocGlobal + Threads + Sync>(
    rt: &T,
    told: &mut String,
    octets: &[u8],
    group: u16,
) -> Result<(), Fail> {
    let mut reader = MemoryReader::new(octets, MOST, None);
    match read_group(rt, &mut Source::new(&mut reader), group) {
        Ok(book) => {
            let result = tell_book(rt.alloc(), told, &book);
            drop(book);
            result
        }
        Err(fault) => Ok(write!(told, "{fault}")?),
    }
}

/// Tells the book of a group of a network that was read once, if it is there.
fn tell_of_network(
    alloc: Global,
    told: &mut String,
    network: &Network,
    group: u16,
) -> Result<(), Fail> {
    let groups = network.groups();
    if group >= groups {
        return Ok(write!(told, "no such group: the network has {groups}")?);
    }
    let book = network.group(alloc, group)?;
    let result = tell_book(alloc, told, &book);
    drop(book);
    result
}

/// Tells how many groups a network has that is read once, or the book of one, or the network's fault.
fn tell_once<T: AllocGlobal + Threads + Sync>(
    rt: &T,
    told: &mut String,
    octets: &[u8],
    group: Option<u16>,
) -> Result<(), Fail> {
    match Network::read(rt, octets) {
        Ok(network) => {
            let result = match group {
                Some(group) => tell_of_network(rt.alloc(), told, &network, group),
                None => tell_count(told, Ok(network.groups())),
            };
            drop(network);
            result
        }
        Err(fault) => Ok(write!(told, "{fault}")?),
    }
}

/// Tells how many groups a network book has, or its fault, and how many octets are left.
fn tell_left<T: AllocGlobal + Threads + Sync>(
    rt: &T,
    told: &mut String,
    octets: &[u8],
) -> Result<usize, Fail> {
    let mut reader = MemoryReader::new(octets, MOST, None);
    let count = count_groups(rt, &mut Source::new(&mut reader));
    tell_count(told, count)?;
    Ok(reader.rest().len())
}

/// The octets of the network book that a row speaks of.
fn octets_of(alloc: Global, before: &[u8], verb: &str, rest: &str) -> Result<Vec<u8>, Fail> {
    let mut octets = Vec::from_slice(alloc, before)?;
    match verb {
        "line_feeds" => octets.resize(rest.parse::<usize>()?, b'\n')?,
        _ => add_rows(&mut octets, rest)?,
    }
    Ok(octets)
}

/// What comes of an action: where the octets are read for one group, and where they are read once for all.
#[derive(Drop)]
struct Told {
    apart: String,
    once: Option<String>,
}

/// Tells how many groups the octets' network has, or the book of one.
fn tell_both<T: AllocGlobal + Threads + Sync>(
    rt: &T,
    octets: &[u8],
    group: Option<u16>,
) -> Result<Told, Fail> {
    let mut apart = String::new(rt.alloc());
    let mut once = String::new(rt.alloc());
    match group {
        Some(group) => tell_group(rt, &mut apart, octets, group)?,
        None => {
            let _left = tell_left(rt, &mut apart, octets)?;
        }
    }
    tell_once(rt, &mut once, octets, group)?;
    Ok(Told {
        apart,
        once: Some(once),
    })
}

/// Tells what comes of an action.
fn carry_out<T: AllocGlobal + Threads + Sync>(
    rt: &T,
    before: &mut Vec<u8>,
    action: &str,
) -> Result<Told, Fail> {
    let alloc = rt.alloc();
    let (verb, rest) = action.split_once(' ').unwrap_or((action, ""));
    let mut apart = String::new(alloc);
    if set(alloc, before, verb, rest)? {
        return Ok(Told { apart, once: None });
    }
    if verb == "group" {
        let (group, rows) = rest.split_once(' ').unwrap_or((rest, ""));
        let octets = octets_of(alloc, before, verb, rows)?;
        return tell_both(rt, &octets, Some(group.parse::<u16>()?));
    }
    let octets = octets_of(alloc, before, verb, rest)?;
    if verb == "line_feeds" {
        let left = tell_left(rt, &mut apart, &octets)?;
        write!(apart, ", {left} left")?;
        return Ok(Told { apart, once: None });
    }
    tell_both(rt, &octets, None)
}

/// Expects what the rows of a table say.
pub fn expect_rows<T: AllocGlobal + Abort + Threads + Sync>(
    rt: &T,
    table: &str,
) -> Result<(), Fail> {
    let mut before = Vec::new(rt.alloc());
    let mut rows = 0_usize;
    for line in table.split('\n') {
        if let Some(row) = Row::of(line) {
            let told = carry_out(rt, &mut before, row.action)?;
            assert_eq!(rt; told.apart.as_str(), row.wanted, "{}", row.action);
            if let Some(once) = &told.once {
                assert_eq!(rt; once.as_str(), row.wanted, "once: {}", row.action);
            }
            rows = rows.saturating_add(1);
        }
    }
    assert!(rt; rows > 0, "a table without a row");
    Ok(())
}

//! The messages of the tests, each by a name. They are worked by hand.

use std::alloc::{AllocError, Global};
use std::test::Fail;
use test_support::{Words, digits_of, octets_of};

/// In each line a name and the octets of a message, one group of digits for each information element. After `..` the
/// message goes on with octets that no test looks at: its content.
const MESSAGES: &str = "
write-@ 01 00006e 0e1112 030010 0400050100010001 0502 060002 070000 1301 0c01 0101 80 46a3d168341a \
    8d46a3d168341a 8d46a3d168341a 8d46a3d168341a 8d46a3d168341a 8d46a3d168341a \
    8d46a3d168341a 8d46a3d168341a 8d46a3d168341a 8d46a3d168341a 8d46a3d168341a 8d46a3d100
write-say-go 01 00006e 0e1112 030010 0400050100010001 0502 060002 070000 1301 0c01 0107 f3 701e243abf45 \
    8d46a3d168341a 8d46a3d168341a 8d46a3d168341a 8d46a3d168341a 8d46a3d168341a \
    8d46a3d168341a 8d46a3d168341a 8d46a3d168341a 8d46a3d168341a 8d46a3d168341a 8d46a3d100
write-go-now 01 00006e 0e1112 030010 0400050100010001 0502 060002 070000 1301 0c01 0106 e7 b7c2fdbe371a \
    8d46a3d168341a 8d46a3d168341a 8d46a3d168341a 8d46a3d168341a 8d46a3d168341a \
    8d46a3d168341a 8d46a3d168341a 8d46a3d168341a 8d46a3d168341a 8d46a3d168341a 8d46a3d100
write-вода 01 00006e 0e1112 030010 0400050100010001 0502 060002 070000 1301 0c48 0108 0412 043e 0434 0430 \
    000d 000d 000d 000d 000d 000d 000d 000d 000d 000d 000d 000d 000d 000d 000d 000d 000d 000d \
    000d 000d 000d 000d 000d 000d 000d 000d 000d 000d 000d 000d 000d 000d 000d 000d 000d 000d 000d
write-one 01 00006e 0e1112 030010 0400050100010001 0502 060002 070000 1301 0c01 0103 ..
write-second-alert 01 00006e 0e1113 030020 ..
write-to-both 01 000072 0e1112 030010 040009010001000100010002 0502 060002 070000 1301 0c01 0101 ..
update-@ 01 000071 0e1112 030011 020010 0400050100010001 0502 060002 070003 1301 0c01 0101 ..
update-вода 01 000071 0e1112 030011 020010 0400050100010001 0502 060002 070000 1301 0c48 0108 0412 043e 0434 0430 ..
kill-0010 04 00000e 0e1112 020010 0400050100010001
kill-0010-in-1-2 04 00000e 0e1112 020010 0400050100010002
kill-0011 04 00000e 0e1112 020011 0400050100010001
written 02 00000e 0e1112 030010 0400050100010001
written-in-both 02 000012 0e1112 030010 040009010001000100010002
not-written 03 00000f 0e1112 030010 0900060100010001 06
written-but-in-1-2 03 000017 0e1112 030010 0900060100010002 06 0400050100010001
replaced 02 000014 0e1112 030011 020010 0800080100010001 0001 00
replaced-unsent 02 000014 0e1112 030011 020010 0800080100010001 0000 00
killed-0011 05 000011 0e1112 020011 0800080100010001 0000 00
not-killed-in-1-2 06 00000f 0e1112 020010 0900060100010002 02
";

/// The octets of the message of a name, at least those that stand in the table.
pub fn octets_in(alloc: Global, name: &str) -> Result<Vec<u8>, Fail> {
    for line in MESSAGES.split('\n') {
        let mut words = Words::of(line);
        if words.word() == name {
            let mut digits = String::new(alloc);
            for _ in 0..60 {
                digits.push_str(words.word())?;
            }
            return octets_of(alloc, &digits);
        }
    }
    Err(Fail::new("no message has this name"))
}

/// Whether the words that are left are these digits. After `..` there are others.
fn are_digits(words: &mut Words<'_>, digits: &str) -> bool {
    let mut left = digits;
    for _ in 0..60 {
        match words.word() {
            "" => return left.is_empty(),
            ".." => return true,
            word => match left.strip_prefix(word) {
                Some(rest) => left = rest,
                None => return false,
            },
        }
    }
    false
}

/// The name of a message.
pub fn name_in(alloc: Global, octets: &[u8]) -> Result<&'static str, AllocError> {
    let digits = digits_of(alloc, octets)?;
    for line in MESSAGES.split('\n') {
        let mut words = Words::of(line);
        let name = words.word();
        if !name.is_empty() && are_digits(&mut words, &digits) {
            return Ok(name);
        }
    }
    Ok("a message without a name")
}

//! What a handset shows of blocks in many orders, by the rules of TS 44.012 and TS 23.041.
//!
//! `feed` hands blocks to the handset and says at which of them it shows a message. A block is one of these words:
//! `@1` to `@4`, the worked blocks of the text `@`; `idle`; two hexadecimal digits, a block of this type whose other
//! octets are carriage returns in UCS-2. `page SERIAL CODING PARAMETER LETTER` feeds the four blocks of a page of
//! message 4370 whose content is this letter in UCS-2; `first` feeds the first of them alone. `pages` feeds such a
//! page under each serial number from 0 and says whether each shows the same; `shown` says how many messages were
//! shown, and `end` which, and goes on with a new handset.
//!
//! In a row of scarce memory the steps, which `;` parts, are carried out at a new handset, and each says what it does.
//! The blocks of a step `scarce ..` are fed with hardly any memory. If one is refused, the messages that were shown
//! have to be those of before, and it is fed with all memory; the steps have to say what they would have said. The row
//! is then carried out anew, with one block of memory more, until nothing is refused.

use crate::of_handset::worked::{IDLE, WORKED};
use handset::{Handset, Refused, Shown};
use std::alloc::{AllocError, Global};
use std::fmt::Write;
use std::mem;
use std::process::Abort;
use std::test::Fail;
use test_support::{Drought, Row, Words, after_refusals};

/// A message is shown once, at the last of four blocks in a row.
const BLOCKS: &str = "
# an idle block before each
feed idle @1 idle @2 idle @3 idle @4 -> nothing
feed 2f @1 2f @2 2f @3 2f @4 -> nothing
shown -> 0
feed @1 @2 @3 @4 -> block 4: 4370 0010 @
# a repeat
feed @1 @2 @3 @4 -> nothing
shown -> 1
end -> 4370 0010 @

# the third block is missing; then all but the first are; then another page comes
first 0020 48 11 b -> nothing
feed 21 33 -> nothing
first 0020 48 11 b -> nothing
page 0010 48 11 a -> block 4: 4370 0010 a
shown -> 1
";

/// What pages show that come one after another.
const PAGES: &str = "
# page parameter 00, and a repeat with another text
page 0010 48 00 a -> block 4: 4370 0010 a
page 0010 48 11 b -> nothing

# one page, which comes again between two pages of another message
page 0020 48 11 A -> block 4: 4370 0020 A
page 0030 48 12 B -> nothing
page 0020 48 11 A -> nothing
page 0030 48 22 C -> block 4: 4370 0030 BC

# two serial numbers whose pages don't go together: the text has the order of numbers
page 0040 48 12 D -> nothing
page 0041 48 22 E -> nothing
page 0041 48 12 F -> block 4: 4370 0041 FE
page 0040 48 22 G -> block 4: 4370 0040 DG

# no data coding, a number over the total, and then a page that is shown
page 0050 f0 11 H -> nothing
page 0050 48 32 I -> nothing
page 0050 48 11 J -> block 4: 4370 0050 J

# first of two, one of another total, one of another data coding, the first again, and the second
page 0060 48 12 K -> nothing
page 0060 48 23 L -> nothing
page 0060 49 22 M -> nothing
page 0060 48 12 N -> nothing
page 0060 48 22 O -> block 4: 4370 0060 KO

# three pages in another order, some of them twice
page 0070 48 23 P -> nothing
page 0070 48 33 Q -> nothing
page 0070 48 33 R -> nothing
page 0070 48 13 S -> block 4: 4370 0070 SPQ
page 0070 48 13 T -> nothing
shown -> 8

# a message of one page in three slots, then the other's first page twice and its second, and idle slots
page 0080 48 11 U -> block 4: 4370 0080 U
page 0080 48 11 U -> nothing
page 0080 48 11 U -> nothing
page 0090 48 12 V -> nothing
page 0090 48 12 V -> nothing
page 0090 48 22 W -> block 4: 4370 0090 VW
feed idle idle idle idle idle idle idle idle -> nothing
shown -> 10
";

/// Neither pages nor messages are forgotten, however many.
const MANY: &str = "
pages 100 48 12 a nothing -> each
pages 100 48 22 b ab -> each
shown -> 100
";

/// Blocks that are fed with scarce memory.
const SCARCE: &str = "
# a message of one page, in septets and in UCS-2
scarce feed @1 @2 @3 @4; shown -> refused; block 4: 4370 0010 @; 1
scarce page 0010 48 11 a; end -> refused; block 4: 4370 0010 a; 4370 0010 a

# each page of a message of two, with another message between
scarce page 0010 48 22 b; page 0020 48 11 c; scarce page 0010 48 12 a; end -> \
    refused; nothing; block 4: 4370 0020 c; block 4: 4370 0010 ab; 4370 0020 c, 4370 0010 ab

# the last of five pages, the first four of which had room
page 0010 48 15 a; page 0010 48 25 b; page 0010 48 35 c; page 0010 48 45 d; scarce page 0010 48 55 e; shown -> \
    refused; nothing; nothing; nothing; nothing; block 4: 4370 0010 abcde; 1

# many messages
scarce pages 10 48 12 a nothing; scarce pages 10 48 22 b ab; shown -> refused; each; each; 10

# Blocks that make no page whole need no memory; nor does a repeat of a message, or of a page of one that isn't whole.
scarce feed idle @1 @2 @3 2f @4 -> nothing
page 0010 48 11 a; scarce page 0010 48 11 b; shown -> block 4: 4370 0010 a; nothing; 1
page 0010 48 12 a; scarce page 0010 48 12 c; page 0010 48 22 b -> nothing; nothing; block 4: 4370 0010 ab

# Nor does a page that is passed over: without an alphabet, of a number over the total, of another total or coding.
scarce page 0010 f0 11 a; scarce page 0010 48 32 b; page 0010 48 11 c -> nothing; nothing; block 4: 4370 0010 c
page 0010 48 12 a; scarce page 0010 48 23 b; scarce page 0010 49 22 c; page 0010 48 22 d -> \
    nothing; nothing; nothing; block 4: 4370 0010 ad
";

/// A handset, and what the blocks of a line showed.
#[derive(Drop)]
struct Phone {
    alloc: Global,
    handset: Handset,
    fed: u16,
    answer: String,
    /// Scarce memory for the blocks of a step.
    drought: Drought,
    /// Whether a block was refused.
    is_refused: bool,
}

/// A block of a type whose other octets are carriage returns.
fn block_of(kind: u8) -> [u8; 23] {
    [
        kind, 0x00, 0x0D, 0x00, 0x0D, 0x00, 0x0D, 0x00, 0x0D, 0x00, 0x0D, 0x00, 0x0D, 0x00, 0x0D,
        0x00, 0x0D, 0x00, 0x0D, 0x00, 0x0D, 0x00, 0x0D,
    ]
}

/// The block that a word names.
fn block(word: &str) -> Result<[u8; 23], Fail> {
    let [first, second, third, last] = WORKED;
    match word {
        "@1" => Ok(first),
        "@2" => Ok(second),
        "@3" => Ok(third),
        "@4" => Ok(last),
        "idle" => Ok(IDLE),
        _ => Ok(block_of(u8::from_str_radix(word, 16)?)),
    }
}

/// The first block of a page of message 4370: its words are data coding, page parameter and letter.
fn first_block(serial: u16, words: &mut Words) -> Result<[u8; 23], Fail> {
    let coding = u8::from_str_radix(words.word(), 16)?;
    let parameter = u8::from_str_radix(words.word(), 16)?;
    let letter = words.word().bytes().next().ok_or("no letter")?;
    let mut block = block_of(0x20);
    let [high, low] = serial.to_be_bytes();
    block[1..9].copy_from_slice(&[high, low, 0x11, 0x12, coding, parameter, 0x00, letter]);
    Ok(block)
}

/// The same with another serial number.
fn numbered(mut block: [u8; 23], serial: u16) -> [u8; 23] {
    let [high, low] = serial.to_be_bytes();
    block[1] = high;
    block[2] = low;
    block
}

/// Appends the line of a message to a text.
fn push_message(text: &mut String, message: &Shown) -> Result<(), AllocError> {
    let serial = message.serial.number();
    write!(text, "{} {serial:04x} {}", message.id, message.text)
}

/// The lines of messages.
fn messages_text(alloc: Global, messages: &[Shown]) -> Result<String, AllocError> {
    let mut text = String::new(alloc);
    for message in messages {
        if !text.is_empty() {
            text.push_str(", ")?;
        }
        push_message(&mut text, message)?;
    }
    Ok(text)
}

/// What the blocks of a page have to show that are to show this text, or nothing.
fn wanted_of(alloc: Global, serial: u16, text: &str) -> Result<String, Fail> {
    if text == "nothing" {
        return Ok(String::from_str(alloc, text)?);
    }
    Ok(format!(in alloc; "block 4: 4370 {serial:04x} {text}")?)
}

/// What a handset answers to a block, where memory can be scarce.
fn answer_to(
    alloc: Global,
    drought: &mut Drought,
    handset: &mut Handset,
    block: &[u8; 23],
) -> Result<Option<Shown>, Refused> {
    drought.begin(alloc);
    let outcome = handset.feed(block);
    drought.end();
    outcome
}

impl Phone {
    /// A handset that was fed nothing.
    fn new(alloc: Global) -> Result<Phone, Fail> {
        let drought = Drought::new(alloc)?;
        Ok(Phone {
            alloc,
            handset: Handset::new(alloc),
            fed: 0,
            answer: String::new(alloc),
            drought,
            is_refused: false,
        })
    }

    /// Feeds a block, with all memory if it was refused before, and returns the message that it shows.
    fn message_of(&mut self, block: &[u8; 23]) -> Result<Option<Shown>, Fail> {
        let before = messages_text(self.alloc, self.handset.shown())?;
        if let Ok(answer) = answer_to(self.alloc, &mut self.drought, &mut self.handset, block) {
            return Ok(answer);
        }
        self.is_refused = true;
        if messages_text(self.alloc, self.handset.shown())? != before {
            return Err(Fail::new("a refused block changes what was shown"));
        }
        Ok(self.handset.feed(block)?)
    }

    /// Feeds a block, and notes the message that it shows.
    fn feed(&mut self, block: &[u8; 23]) -> Result<(), Fail> {
        self.fed = self.fed.saturating_add(1);
        if let Some(message) = self.message_of(block)? {
            let noted = self.note(&message);
            drop(message);
            return Ok(noted?);
        }
        Ok(())
    }

    /// Notes a message that the block shows that was fed last.
    fn note(&mut self, message: &Shown) -> Result<(), AllocError> {
        write!(self.answer, "block {}: ", self.fed)?;
        push_message(&mut self.answer, message)
    }

    /// What was noted since the last answer.
    fn answer(&mut self) -> Result<String, Fail> {
        self.fed = 0;
        if self.answer.is_empty() {
            self.answer.push_str("nothing")?;
        }
        Ok(mem::replace(&mut self.answer, String::new(self.alloc)))
    }

    /// What blocks show, one word each, at most 64 of them.
    fn feed_all(&mut self, words: &mut Words) -> Result<String, Fail> {
        for _ in 0..64 {
            let word = words.word();
            if word.is_empty() {
                break;
            }
            self.feed(&block(word)?)?;
        }
        self.answer()
    }

    /// What the four blocks of a page show, of which this is the first.
    fn page(&mut self, first: &[u8; 23]) -> Result<String, Fail> {
        self.feed(first)?;
        for kind in [0x21, 0x22, 0x33] {
            self.feed(&block_of(kind))?;
        }
        self.answer()
    }

    /// Feeds a page under each of so many serial numbers, and says whether each shows the text that is the last word.
    fn pages(&mut self, words: &mut Words) -> Result<String, Fail> {
        let count = words.number16()?;
        let first = first_block(0, words)?;
        let text = words.word();
        for serial in 0..count {
            let answer = self.page(&numbered(first, serial))?;
            let wanted = wanted_of(self.alloc, serial, text)?;
            if answer.as_str() != wanted.as_str() {
                return Ok(answer);
            }
        }
        Ok(String::from_str(self.alloc, "each")?)
    }

    /// Which messages were shown. A new handset takes the place of this one.
    fn end(&mut self) -> Result<String, Fail> {
        let handset = mem::replace(&mut self.handset, Handset::new(self.alloc));
        Ok(messages_text(self.alloc, &handset.into_shown())?)
    }

    /// What comes of an action, for whose blocks so much memory is left if it is `scarce`. Its words are all read.
    fn carry_out(&mut self, action: &str, blocks: u16) -> Result<String, Fail> {
        let mut words = Words::of(action);
        let verb = self.drought.verb(&mut words, blocks);
        let found = self.carried_out(verb, &mut words)?;
        if words.word().is_empty() {
            return Ok(found);
        }
        Err(Fail::new("words are left over"))
    }

    /// What comes of the steps of a row at a new handset.
    fn steps(&mut self, steps: &str, blocks: u16) -> Result<String, Fail> {
        self.handset = Handset::new(self.alloc);
        self.is_refused = false;
        let mut all = String::new(self.alloc);
        for step in steps.split(';') {
            if !all.is_empty() {
                all.push_str("; ")?;
            }
            all.push_str(&self.carry_out(step, blocks)?)?;
        }
        Ok(all)
    }

    /// What comes of an action.
    fn carried_out(&mut self, verb: &str, words: &mut Words) -> Result<String, Fail> {
        match verb {
            "feed" => self.feed_all(words),
            "first" => {
                let serial = words.hex16()?;
                self.feed(&first_block(serial, words)?)?;
                self.answer()
            }
            "page" => {
                let serial = words.hex16()?;
                self.page(&first_block(serial, words)?)
            }
            "pages" => self.pages(words),
            "shown" => Ok(self.handset.shown().len().to_string(self.alloc)?),
            "end" => self.end(),
            _ => Ok(String::from_str(self.alloc, "no such action")?),
        }
    }
}

/// What comes of a row of scarce memory: it is carried out with one block more each time, until nothing is refused.
fn outcome(alloc: Global, phone: &mut Phone, row: Row) -> Result<String, Fail> {
    for refused in 0..Drought::MOST {
        let found = phone.steps(row.action, refused)?;
        if !phone.is_refused {
            return Ok(after_refusals(alloc, refused, found)?);
        }
        if row.wanted.strip_prefix("refused; ") != Some(found.as_str()) {
            return Ok(format!(in alloc; "refused, and then {found}")?);
        }
    }
    Err(Fail::new("it is refused to the end"))
}

/// Whether a table's rows are carried out with scarce memory.
#[derive(Clone, Copy)]
enum Memory {
    Ample,
    Scarce,
}

/// Expects what a row says.
fn expect_row(alloc: Global, phone: &mut Phone, row: Row, memory: Memory) -> Result<(), Fail> {
    let found = match memory {
        Memory::Ample => phone.carry_out(row.action, 0)?,
        Memory::Scarce => outcome(alloc, phone, row)?,
    };
    if found.as_str() == row.wanted {
        return Ok(());
    }
    Err(Fail::new(format_args!("{} -> {found}", row.action)))
}

/// Expects what the rows of a table say, and returns how many there are.
fn expect_each(alloc: Global, phone: &mut Phone, table: &str, memory: Memory) -> Result<u16, Fail> {
    let mut rows = 0_u16;
    for line in table.split('\n') {
        if let Some(row) = Row::of(line) {
            expect_row(alloc, phone, row, memory)?;
            rows = rows.saturating_add(1);
        }
    }
    Ok(rows)
}

/// Expects what the rows of a table say of a new handset, and that there are so many rows.
fn expect_rows(
    rt: &impl Abort,
    alloc: Global,
    table: &str,
    count: u16,
    memory: Memory,
) -> Result<(), Fail> {
    let mut phone = Phone::new(alloc)?;
    let rows = expect_each(alloc, &mut phone, table, memory);
    drop(phone);
    assert!(rt; rows? == count);
    Ok(())
}

#[test]
fn messages_are_shown_once_they_are_whole(rt: HostRuntime) -> Result<(), Fail> {
    expect_rows(&rt, rt.alloc(), BLOCKS, 12, Memory::Ample)?;
    expect_rows(&rt, rt.alloc(), PAGES, 32, Memory::Ample)?;
    expect_rows(&rt, rt.alloc(), MANY, 3, Memory::Ample)
}

#[test]
fn blocks_are_refused_until_there_is_memory(rt: HostRuntime) -> Result<(), Fail> {
    expect_rows(&rt, rt.alloc(), SCARCE, 10, Memory::Scarce)
}

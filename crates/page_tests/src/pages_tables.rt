//! Pages, and texts that are cut into them.

use crate::table::expect_rows;
use std::test::Fail;

/// Serial numbers, data codings by 3GPP TS 23.038, and the octets of pages.
const PAGES: &str = "
serial 3 1023 15 -> ffff
serial 0 1 0 -> 0010
serial 1 2 3 -> 4023
serial 4 0 0 -> -
serial 0 1024 0 -> -
serial 0 0 16 -> -
fields 8ff5 -> 2 255 5 8ff5
# Each data coding from a first to a last one.
alphabet 00 0f -> Some(Gsm)
alphabet 10 1f -> None
alphabet 20 24 -> Some(Gsm)
alphabet 25 3f -> None
alphabet 40 43 -> Some(Gsm)
alphabet 44 47 -> None
alphabet 48 4b -> Some(Ucs2)
alphabet 4c 4f -> None
alphabet 50 53 -> Some(Gsm)
alphabet 54 57 -> None
alphabet 58 5b -> Some(Ucs2)
alphabet 5c ff -> None
language de -> Some(0)
language en -> Some(1)
language it -> Some(2)
language fr -> Some(3)
language es -> Some(4)
language nl -> Some(5)
language sv -> Some(6)
language da -> Some(7)
language pt -> Some(8)
language fi -> Some(9)
language no -> Some(10)
language el -> Some(11)
language tr -> Some(12)
language hu -> Some(13)
language pl -> Some(14)
language und -> Some(15)
language cs -> Some(32)
language he -> Some(33)
language ar -> Some(34)
language ru -> Some(35)
language is -> Some(36)
# Words that name no language, and no word at all.
language xx -> None
language DE -> None
language e -> None
language eng -> None
language -> None
# The text `@` on page 2 of 3: the septet 00, and carriage returns to the end.
page 1112 0010 01 2 3 8046a3d168341a<10*8d46a3d168341a>8d46a3d100 -> 0010111201238046..
view 0010111201238046a3d168341a<10*8d46a3d168341a>8d46a3d100 \
    -> serial 0010 id 1112 dcs 01 page 2 of 3 readable content 8046a3d168341a<10*8d46a3d168341a>8d46a3d100
# A zero in either half of the page parameter is page 1 of 1.
view 0010111201008046a3d168341a<10*8d46a3d168341a>8d46a3d100 -> serial 0010 id 1112 dcs 01 page 1 of 1 readable ..
view 0010111201508046a3d168341a<10*8d46a3d168341a>8d46a3d100 -> serial 0010 id 1112 dcs 01 page 1 of 1 readable ..
view 0010111201078046a3d168341a<10*8d46a3d168341a>8d46a3d100 -> serial 0010 id 1112 dcs 01 page 1 of 1 readable ..
view 0010111201218046a3d168341a<10*8d46a3d168341a>8d46a3d100 -> serial 0010 id 1112 dcs 01 page 2 of 1 unreadable ..
view 0010111201ff8046a3d168341a<10*8d46a3d168341a>8d46a3d100 -> serial 0010 id 1112 dcs 01 page 15 of 15 readable ..
# Data codings without an alphabet.
view 0010111210118046a3d168341a<10*8d46a3d168341a>8d46a3d100 -> serial 0010 id 1112 dcs 10 page 1 of 1 unreadable ..
view 0010111225118046a3d168341a<10*8d46a3d168341a>8d46a3d100 -> serial 0010 id 1112 dcs 25 page 1 of 1 unreadable ..
view 0010111244118046a3d168341a<10*8d46a3d168341a>8d46a3d100 -> serial 0010 id 1112 dcs 44 page 1 of 1 unreadable ..
view 001011124c118046a3d168341a<10*8d46a3d168341a>8d46a3d100 -> serial 0010 id 1112 dcs 4c page 1 of 1 unreadable ..
view 0010111260118046a3d168341a<10*8d46a3d168341a>8d46a3d100 -> serial 0010 id 1112 dcs 60 page 1 of 1 unreadable ..
view 00101112f0118046a3d168341a<10*8d46a3d168341a>8d46a3d100 -> serial 0010 id 1112 dcs f0 page 1 of 1 unreadable ..
";

/// Texts on pages. Those in other scripts are written as iconv writes them in UCS-2.
const TEXTS: &str = "
# An escape and its septet stand on one page: septet 92 is the carriage return that fills the first, the last septet
# but for its lowest bit.
cut en <92*a>€ -> dcs 01 used 81 2
content 1 en <92*a>€ -> ..7038dc00
content 2 en <92*a>€ -> 9b72a3d168341a8d..
# 93 septets fill a page, and 15 pages are the most.
cut en <93*a> -> dcs 01 used 82
content 1 en <93*a> -> ..1c06
cut en <94*a> -> dcs 01 used 82 1
cut en <1395*a> -> dcs 01 used<15* 82>
cut en <1396*a> -> TooManyPages
cut ru <616*Я> -> TooManyPages
# One Cyrillic letter makes a text UCS-2.
cut en <41*a>Я -> dcs 48 used 82 2
content 1 en <41*a>Я -> 00610061..
content 2 en <41*a>Я -> 042f000d000d..
# Each character whose septet is its own number: alone, after one whose septet is another, and on two pages.
cut und <000A> !\"#%&'()*+,-./0123456789:;<003C>=<003E>?ABCDEFGHIJKLMNOPQRSTUVWXYZabcdefghijklmnopqrstuvwxyz -> \
    dcs 0f used 74
content 1 und <000A> !\"#%&'()*+,-./0123456789:;<003C>=<003E>?ABCDEFGHIJKLMNOPQRSTUVWXYZabcdefghijklmnopqrstuvwxyz -> \
    0a5048342a994ea8946ac56ab95eb0986c46abd96eb89c6ec7ebf97e41e19058341e9149e592d9743ea151e9945ab55eb1596d583c2697cd67\
    745abd66b7dd6f785c3ea7d7ed777c5edf68341a8d46a3d100
cut und $<000A> !\"#%&'()*+,-./0123456789:;<003C>=<003E>?ABCDEFGHIJKLMNOPQRSTUVWXYZabcdefghijklmnopqrstuvwxyz -> \
    dcs 0f used 75
content 1 und $<000A> !\"#%&'()*+,-./0123456789:;<003C>=<003E>?ABCDEFGHIJKLMNOPQRSTUVWXYZabcdefghijklmnopqrstuvwxyz -> \
    020528241a954c27544ab562b55c2f584c36a3d56c375c4eb7e3f57cbfa070482c1a8fc8a472c96c3a9fd0a8744aad5aafd8ac362c1e93cbe6\
    333aad5eb3dbee373c2e9fd3ebf63b3eaf6f341a8d46a3d100
cut und <000A> !\"#%&'()*+,-./0123456789:;<003C>=<003E>?ABCDEFGHIJKLMNOPQRSTUVWXYZabcdefghijklmnopqrstuvwxyz\
    <000A> !\"#%&'() -> dcs 0f used 82 1
content 1 und <000A> !\"#%&'()*+,-./0123456789:;<003C>=<003E>?ABCDEFGHIJKLMNOPQRSTUVWXYZabcdefghijklmnopqrstuvwxyz\
    <000A> !\"#%&'() -> \
    0a5048342a994ea8946ac56ab95eb0986c46abd96eb89c6ec7ebf97e41e19058341e9149e592d9743ea151e9945ab55eb1596d583c2697cd67\
    745abd66b7dd6f785c3ea7d7ed777c5eaf008544a392e98402
content 2 und <000A> !\"#%&'()*+,-./0123456789:;<003C>=<003E>?ABCDEFGHIJKLMNOPQRSTUVWXYZabcdefghijklmnopqrstuvwxyz\
    <000A> !\"#%&'() -> a946a3d168341a<10*8d46a3d168341a>8d46a3d100
# The first fault is told.
cut en a<000D> -> BadCharacter { place: 1 }
cut en é<1F6A8><000D> -> BadCharacter { place: 1 }
cut en -> Empty
cut en <1F6A8> -> BadCharacter { place: 0 }
cut xx -> BadLanguage
cut xx <000D> -> BadLanguage
cut en <1396*a><000D> -> BadCharacter { place: 1396 }
# Texts in UCS-2.
cut und Внимание! Опасность наводнения -> dcs 48 used 60
content 1 und Внимание! Опасность наводнения -> 0412043d0438043c0430043d0438043500210020041e043f04300441043d043e\
    04410442044c0020043d04300432043e0434043d0435043d0438044f..
cut und Πλημμύρα – μείνετε μέσα -> dcs 48 used 46
content 1 und Πλημμύρα – μείνετε μέσα -> 03a003bb03b703bc03bc03cd03c103b100202013002003bc03b503af03bd03b503c403b\
    5002003bc03ad03c303b1..
cut und تحذير من فيضان -> dcs 48 used 28
content 1 und تحذير من فيضان -> 062a062d0630064a063100200645064600200641064a063606270646..
cut und אזהרה -> dcs 48 used 10
content 1 und אזהרה -> 05d005d605d405e805d4..
cut und 洪水警報 -> dcs 48 used 8
content 1 und 洪水警報 -> 6d2a6c348b665831..
cut und Ω€Я -> dcs 48 used 6
content 1 und Ω€Я -> 03a920ac042f..
cut und žluťoučký kůň -> dcs 48 used 26
content 1 und žluťoučký kůň -> 017e006c00750165006f0075010d006b00fd0020006b016f0148..
cut und İstanbul’da deprem -> dcs 48 used 36
content 1 und İstanbul’da deprem -> 0130007300740061006e00620075006c201900640061002000640065007000720065006d..
cut und <E000><FFFD> -> dcs 48 used 4
content 1 und <E000><FFFD> -> e000fffd..
cut und a<000A>b<00A0>c -> dcs 48 used 10
content 1 und a<000A>b<00A0>c -> 0061000a006200a00063..
# A, and an escape alone at the end.
shown 01 c14da3d168341a<10*8d46a3d168341a>8d46a3d100 -> A<0020>
# Escapes before 65, a line feed and A; then a carriage return in the middle, and B.
shown 40 9bf246b1093684<10*8d46a3d168341a>8d46a3d100 -> €<000A>A<000D>B
# Eight carriage returns and more before the last letters, which are no filling; and five after them.
shown 01 <10*e170381c0e87c3>8d46a3d168341ae170381c06 -> <80*a><000D><000D><000D><000D><000D><000D><000D><000D><5*a>
shown 01 <2*8d46a3d168341a>e170381c0e87c3<8*8d46a3d168341a>8d46a3d100 -> \
    <000D><000D><000D><000D><000D><000D><000D><000D><000D><000D><000D><000D><000D><000D><000D><000D><8*a>
shown 01 <11*e170381c0e87c3>8d46a3d100 -> <88*a>
# A surrogate, and a carriage return in the middle.
shown 48 d83d000d0041<38*000d> -> <FFFD><000D>A
# Behind another text: a plain page, one with an escape, one in UCS-2, and one that is all filling.
behind ( 0f a946a3d168341a<10*8d46a3d168341a>8d46a3d100 -> ()
behind ( 01 c14da3d168341a<10*8d46a3d168341a>8d46a3d100 -> (A<0020>
behind ( 48 d83d000d0041<38*000d> -> (<FFFD><000D>A
behind ( 48 <41*000d> -> (
# What faults are called, and then out of memory for a page that is shown.
faults -> unknown language; text is empty; bad character at 12; too many pages; out of memory; \
    memory allocation failed
";

/// Texts that are cut, and pages that are shown, with scarce memory.
const SCARCE: &str = "
# One page, several, and the most, in septets and in UCS-2.
scarce cut en a -> refused; dcs 01 used 1
scarce cut en <200*a> -> refused; dcs 01 used 82 82 13
scarce cut en <92*a>€ -> refused; dcs 01 used 81 2
scarce cut en <1395*a> -> refused; dcs 01 used<15* 82>
scarce cut ru Я -> refused; dcs 48 used 2
scarce cut ru <83*Я> -> refused; dcs 48 used 82 82 2
scarce cut ru <615*Я> -> refused; dcs 48 used<15* 82>
# A text that isn't sent needs no memory to be told so.
scarce cut xx <200*a> -> BadLanguage
scarce cut en -> Empty
scarce cut en <200*a><000D> -> BadCharacter { place: 200 }
scarce cut en <1396*a> -> TooManyPages
scarce cut ru <616*Я> -> TooManyPages
# A page of 93 times @ in septets, and of 41 times the letter 042F.
scarce shown 00 <82*00> -> refused; <93*@>
scarce shown 48 <41*042f> -> refused; <41*Я>
# A plain page, of 93 times the letter a.
scarce shown 00 <11*e170381c0e87c3>e170381c06 -> refused; <93*a>
# The same pages behind another text.
scarce behind ( 00 <11*e170381c0e87c3>e170381c06 -> refused; (<93*a>
scarce behind ( 00 <82*00> -> refused; (<93*@>
scarce behind ( 48 <41*042f> -> refused; (<41*Я>
# A page that is all filling shows no text, which needs no memory.
scarce shown 48 <41*000d> ->
scarce behind ( 48 <41*000d> -> (
";

#[test]
fn pages_have_their_octets_and_show_their_texts(rt: HostRuntime) -> Result<(), Fail> {
    expect_rows(&rt, rt.alloc(), PAGES, 58)?;
    expect_rows(&rt, rt.alloc(), TEXTS, 57)
}

#[test]
fn texts_and_pages_are_refused_until_they_have_memory(rt: HostRuntime) -> Result<(), Fail> {
    expect_rows(&rt, rt.alloc(), SCARCE, 20)
}

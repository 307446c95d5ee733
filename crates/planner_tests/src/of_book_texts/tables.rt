//! What texts cost, where they are cut, and tables of books. The numbers are those of another program, which counts the
//! pages of each front anew.

use crate::of_book_texts::rows::expect_rows;
use std::test::Fail;

/// Texts by themselves.
const TEXTS: &str = "
# One page of septets, and one septet more; an escape pair isn't split.
cost -> Gsm 0 0 93
cost @ -> Gsm 1 1 92
cost Move now -> Gsm 8 1 85
cost <93*a> -> Gsm 93 1 0
cost <94*a> -> Gsm 94 2 92
cost <91*a>€ -> Gsm 92 1 0
cost <92*a>€ -> Gsm 93 2 91
cost <46*€> -> Gsm 46 1 1
cost <47*€> -> Gsm 47 2 91
cost Straße [1] {2} -> Gsm 14 1 75
cost <1395*a> -> Gsm 1395 15 0
cost <1396*a> -> Gsm 1396 16 92
# A character that GSM 7-bit lacks has all of them sent in UCS-2: 41 units a page.
cost Вода -> Ucs2 4 1 37
cost <41*ж> -> Ucs2 41 1 0
cost <42*ж> -> Ucs2 42 2 40
cost <92*a>ж -> Ucs2 93 3 30
cost smart ’ quote -> Ucs2 13 1 28
cost naïve café -> Ucs2 10 1 31
cost aé -> Ucs2 3 1 38
cost <615*ж> -> Ucs2 615 15 0
cost <616*ж> -> Ucs2 616 16 40
first Move now -> none
first smart ’ quote -> ’ at 6
first Вода -> В at 0
first abcdefgż -> ż at 7
first €uro 5 ż -> ż at 7
first naïve -> ï at 2
# All of it, or up to the last space before what is too much.
cut 1 Move now -> 8
cut 1 <93*a> -> 93
cut 1 <93*a> b -> 93
cut 1 <92*a> b -> 92
cut 1 <20*word >word -> 89
cut 2 <40*word >word -> 184
cut 15 <1395*a> -> 1395
cut 15 <1396*a> -> 1395
# Where no space stands before that, at a character.
cut 1 <94*a> -> 93
cut 1 <92*a>€ -> 92
cut 1 <50*ж> -> 41
cut 15 <616*ж> -> 615
# A front without the character that forces UCS-2 is GSM 7-bit, and longer.
cut 1 <50*a> ж -> 50
cut 1 <50*a> żab -> 50
cut 1 <40*a> жж -> 40
cut 2 <100*x> <60*€> -> 100
cut 1 <30*ж> <30*ж> -> 30
cut 15 <110*слово > -> 611
# No page has room for a character, and no front has one.
cut 0 a -> 0
cut 1 -> 0
";

/// Books.
const BOOKS: &str = "
in cell,1,1
in write,0,a,4370,0,1,en,2,2,0,*,One
in update,1,a,ru,2,2,0,*,Вода
in stop,2,a,1-1
texts -> done
line 0 -> row,name,lang,coding,characters,pages,room,first_ucs2,place
line 1 -> 2,a,en,GSM 7-bit,3,1,90,,
line 2 -> 3,a,ru,UCS-2,4,1,37,В,0
line 3 -> end
texts 1 -> done
line 0 -> row,name,lang,coding,characters,pages,room,first_ucs2,place,fits
line 1 -> 2,a,en,GSM 7-bit,3,1,90,,,3
line 2 -> 3,a,ru,UCS-2,4,1,37,В,0,4
line 3 -> end

# Fields are quoted if CSV needs it; a word that names no language stands as it is; no text takes no page.
again
in cell,1,1
in write,0,\"a,\"\"b\"\"\",4370,0,1,xx,2,2,0,*,\"One, two\"
in write,0,empty,4370,0,2,en,2,2,0,*,
texts 2 -> done
line 1 -> 2,\"a,\"\"b\"\"\",xx,GSM 7-bit,8,1,85,,,8
line 2 -> 3,empty,en,GSM 7-bit,0,0,93,,,0
line 3 -> end

# A text with a character that can't be sent takes no pages, whatever its length.
again
in cell,1,1
in write,0,a,4370,0,1,en,2,2,0,*,fire 🔥
texts 1 -> done
line 1 -> 2,a,en,UCS-2,6,,,🔥,5,
line 2 -> end

# A text over 15 pages has its pages, and is cut for fewer.
again
in cell,1,1
in write,0,long,4370,0,1,en,2,2,0,*,<16*<92*x> >y
texts 15 -> done
line 1 -> 2,long,en,GSM 7-bit,1489,17,92,,,1394

# A row that is none of a book is told, and nothing written.
again
in cell,1,1
in write,0,a,4370,0,1,en,2,0,0,*,One
texts -> row 2: number; 0 octets
again
in cell;1;1
texts 1 -> row 1: verb; 0 octets

# No book at all.
again
texts -> done
line 0 -> row,name,lang,coding,characters,pages,room,first_ucs2,place
line 1 -> end

# Ends that fail: at once, and after a call.
in cell,1,1
in write,0,a,4370,0,1,en,2,2,0,*,One
reads 0 texts -> read failed; 0 octets
reads 1 texts -> read failed; 0 octets
writes 0 texts -> write failed; 0 octets
writes 1 texts -> write failed; 50 octets
";

/// Network books.
const NETWORKS: &str = "
in cell,1,0
in write,0,a,4370,0,1,en,2,2,0,1-0,One
in cell,1,1
in update,1,a,ru,2,2,0,1-1,Вода
in stop,2,a,1-1
network -> done
line 1 -> 2,a,en,GSM 7-bit,3,1,90,,
line 2 -> 4,a,ru,UCS-2,4,1,37,В,0
line 3 -> end
group 0 1 -> done
line 1 -> 2,a,en,GSM 7-bit,3,1,90,,,3
line 2 -> 4,a,ru,UCS-2,4,1,37,В,0,4
line 3 -> end
group 1 -> no such group: the network has 1; 0 octets
in cell,1
group 1 -> row 6: columns; 0 octets
network -> row 6: columns; 0 octets
";

#[test]
fn networks_give_tables(rt: HostRuntime) -> Result<(), Fail> {
    expect_rows(&rt, rt.alloc(), NETWORKS, 11)
}

#[test]
fn texts_cost_what_another_program_counts(rt: HostRuntime) -> Result<(), Fail> {
    expect_rows(&rt, rt.alloc(), TEXTS, 47)
}

#[test]
fn books_give_tables(rt: HostRuntime) -> Result<(), Fail> {
    expect_rows(&rt, rt.alloc(), BOOKS, 28)
}

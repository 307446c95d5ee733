//! Segments by hand, and the messages that they are.

use crate::of_link_streams::bench::expect_rows;
use std::test::Fail;

const IN_ORDER: &str = "
# a connection is set up, and each side says something: KEEP-ALIVE, and its answer
file
> 100 S
< 500 S
> 101 - 16000000
< 501 - 17000000
messages -> 3>16000000;4<17000000;

# two messages in a segment, of which the second ends in the next one; what isn't whole is none
> 105 - 160000001700
> 111 - 00011816
messages -> 3>16000000;4<17000000;5>16000000;6>1700000118;
> 115 - 0000
messages -> 3>16000000;4<17000000;5>16000000;6>1700000118;
> 117 - 00
messages -> 3>16000000;4<17000000;5>16000000;6>1700000118;8>16000000;

# octet by octet
file
> 100 S
> 101 - 10
> 102 - 00
> 103 - 00
> 104 - 02
> 105 - ab
> 106 - cd
messages -> 7>10000002abcd;

# a message of 1,004 octets, in 251 segments, and one that says that it has 16,777,215 octets, of which none comes
file
> 100 S
> 101 - 010003e8
fill 250 105 4 aabbccdd
count -> 1 of 1004 octets
> 1105 - 01ffffff
> 1109 - 16000000
count -> 1 of 1004 octets

# a file without a packet, and one without a message
file
messages ->
> 100 S
messages ->
";

#[test]
fn messages_follow_each_other_in_a_stream(rt: HostRuntime) -> Result<(), Fail> {
    expect_rows(&rt, rt.alloc(), IN_ORDER, 34)
}

const OUT_OF_ORDER: &str = "
# two segments the other way round: both messages come with the one that fills the gap
file
> 100 S
> 105 - 17000000
messages ->
> 101 - 16000000
messages -> 3>16000000;3>17000000;

# repeated, with other octets: the first ones count, whether they wait or not
file
> 100 S
> 105 - 17000000
> 105 - 10000000
> 101 - 16000000
> 101 - 10000000
> 105 - 10000000
messages -> 4>16000000;4>17000000;

# overlapping: 0002aa came first, so the others at places 103, 104 and 105 don't count
file
> 100 S
> 103 - 0002aa
> 101 - 1600ffffffbb
messages -> 3>16000002aabb;

# it begins before what is there, and ends after it
file
> 100 S
> 101 - 160000
> 101 - ffffff0017000000
messages -> 3>16000000;3>17000000;

# a gap: nothing comes after it, until it is filled
file
> 100 S
> 101 - 16000000
> 106 - 00000017000000
messages -> 2>16000000;
> 113 - 16000000
messages -> 2>16000000;
> 105 - 17
messages -> 2>16000000;5>17000000;5>17000000;5>16000000;

# an octet before what is there, as a TCP keep-alive has it, counts for nothing; nor does a segment without data, here
# and past a gap
file
> 100 S
> 101 - 16000000
> 104 - 00
> 105 -
> 300 -
> 105 - 17000000
messages -> 2>16000000;6>17000000;
";

#[test]
fn octets_stand_in_the_order_of_their_numbers(rt: HostRuntime) -> Result<(), Fail> {
    expect_rows(&rt, rt.alloc(), OUT_OF_ORDER, 41)
}

const ROUND: &str = "
# sequence numbers go round after 4,294,967,295: in a message, and right after SYN
file
> 4294967293 S
> 4294967294 - 16000000
> 2 - 17000000
messages -> 2>16000000;3>17000000;
file
> 4294967295 S
> 0 - 16000000
messages -> 2>16000000;
file
> 4294967290 S
> 0 - 00000117
> 4294967291 - 1600000010
messages -> 3>16000000;3>1000000117;

# less than half the way round ahead is later, and waits; more is before
file
> 100 S
fill 255 105 4 17000000
> 2147483744 - 16000000
> 1125 - 16000000
> 101 - 16000000
count -> 256 of 1024 octets
file
> 100 S
fill 255 105 4 17000000
> 2147483745 - 16000000
> 1125 - 16000000
> 101 - 16000000
count -> 257 of 1028 octets
";

#[test]
fn sequence_numbers_go_round(rt: HostRuntime) -> Result<(), Fail> {
    expect_rows(&rt, rt.alloc(), ROUND, 28)
}

const BEGINS: &str = "
# SYN begins a direction anew: what had begun is dropped, and what comes late of the old connection doesn't count
file
> 100 S
> 101 - 1600
> 900 S
> 103 - 0000
> 901 - 17000000
messages -> 5>17000000;

# the other direction goes on
file
> 100 S
< 500 S
< 501 - 1700
> 900 S
< 503 - 0000
messages -> 5<17000000;

# SYN twice, and SYN with data (TCP fast open)
file
> 100 S
> 100 S
> 101 - 16000000
messages -> 3>16000000;
file
> 100 S 16000000
> 105 - 17000000
messages -> 1>16000000;2>17000000;

# without SYN the first segment begins whose data may be messages: of types 01 to 17, whose lengths fit
file
> 101 - 16000000
> 97 - 10000000
> 105 - 17000000
messages -> 1>16000000;3>17000000;
file
> 101 - 00000016
> 105 - 18000000
> 109 - 1600000018
> 114 -
> 114 - 17
> 115 - 000000
messages -> 6>17000000;
file
> 101 - 1600000017000002
> 109 - abcd
messages -> 1>16000000;2>17000002abcd;
";

#[test]
fn directions_begin_with_syn_or_in_the_middle(rt: HostRuntime) -> Result<(), Fail> {
    expect_rows(&rt, rt.alloc(), BEGINS, 40)
}

const MANY: &str = "
# four directions of two connections, mixed
file
> 100 S
< 200 S
) 100 S
( 200 S
( 201 - 17
> 101 - 160000
< 201 - 17000000
) 103 - 0000
( 202 - 000000
) 101 - 1600
> 104 - 00
messages -> 7<17000000;9(17000000;10)16000000;11>16000000;

# 256 segments wait past a gap, and no more: the next one is dropped, and counts once it comes again
file
> 100 S
fill 256 105 4 17000000
> 1129 - 16000000
count -> 0 of 0 octets
> 101 - 16000000
count -> 257 of 1028 octets
> 1129 - 16000000
count -> 258 of 1032 octets

# and of 255 there is room for one
file
> 100 S
fill 255 105 4 17000000
> 1125 - 16000000
> 101 - 16000000
count -> 257 of 1028 octets

# there is room again after the gap is filled
file
> 100 S
fill 256 105 4 17000000
> 101 - 16000000
fill 256 1133 4 17000000
> 1129 - 16000000
count -> 514 of 2056 octets
";

#[test]
fn directions_are_apart_and_few_segments_wait(rt: HostRuntime) -> Result<(), Fail> {
    expect_rows(&rt, rt.alloc(), MANY, 35)
}

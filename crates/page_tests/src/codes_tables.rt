//! Characters, septets and units, from outside.

use crate::table::expect_rows;
use gsm_alphabet::alphabet_laws;
use septets::packing_laws;
use std::test::Fail;
use ucs2_text::ucs2_laws;

/// Two independent programs agree on these codes both ways. A carriage return, and what an escape shows before other
/// septets, are from 3GPP TS 23.038.
const CODES: &str = "
# The default alphabet without the escape.
codes @£$¥èéùì -> 00 01 02 03 04 05 06 07
codes òÇ<000A>ØøÅå -> 08 09 0a 0b 0c 0e 0f
codes Δ_ΦΓΛΩΠΨ -> 10 11 12 13 14 15 16 17
codes ΣΘΞÆæßÉ -> 18 19 1a 1c 1d 1e 1f
codes <0020>!\"#¤%&' -> 20 21 22 23 24 25 26 27
codes ()*+,-./ -> 28 29 2a 2b 2c 2d 2e 2f
codes 01234567 -> 30 31 32 33 34 35 36 37
codes 89:;<003C>=<003E>? -> 38 39 3a 3b 3c 3d 3e 3f
codes ¡ABCDEFG -> 40 41 42 43 44 45 46 47
codes HIJKLMNO -> 48 49 4a 4b 4c 4d 4e 4f
codes PQRSTUVW -> 50 51 52 53 54 55 56 57
codes XYZÄÖÑÜ§ -> 58 59 5a 5b 5c 5d 5e 5f
codes ¿abcdefg -> 60 61 62 63 64 65 66 67
codes hijklmno -> 68 69 6a 6b 6c 6d 6e 6f
codes pqrstuvw -> 70 71 72 73 74 75 76 77
codes xyzäöñüà -> 78 79 7a 7b 7c 7d 7e 7f
# The extension table, behind an escape.
codes [\\]^{|}~€ -> 1b3c 1b2f 1b3e 1b14 1b28 1b40 1b29 1b3d 1b65
codes <000D> -> 0d
# Characters that have no code.
codes <0009>`çΑ’中😀<001B><FFFD> -> - - - - - - - - -
# A carriage return, an escape alone, an escape before an escape, and before a line feed and a letter.
show 0d -> <000D>
show 1b -> <0020>
show 1b1b -> <0020>
show 1b0a -> <000A>
show 1b41 -> A
";

/// Packed pages: libGammu and libosmogsm agree on each of the first.
const PACKED: &str = "
pack 18 -> 9846a3d168341a<10*8d46a3d168341a>8d46a3d100
pack 1b2f -> 9b57a3d168341a<10*8d46a3d168341a>8d46a3d100
pack 5f292f -> dfd4abd168341a<10*8d46a3d168341a>8d46a3d100
pack 60024b7b -> 60c172df68341a<10*8d46a3d168341a>8d46a3d100
pack 1a145a1b29 -> 1a8a76936a341a<10*8d46a3d168341a>8d46a3d100
pack 6d1c63150c69 -> 6dceb8c248371a<10*8d46a3d168341a>8d46a3d100
pack 77435b15407b59 -> f7e1b602dc671b<10*8d46a3d168341a>8d46a3d100
pack 68581a5609642f39 -> 68acc69a20bf72<10*8d46a3d168341a>8d46a3d100
pack 05797d4f4e6d5b644f -> 857cffe96c6fc9cf46a3d168341a<9*8d46a3d168341a>8d46a3d100
pack 1371315e1e67020c1b14751b140702 -> 9378cceb390b181b4a7d4339081a<9*8d46a3d168341a>8d46a3d100
pack 5e356b341624065117382b307b1d5a253a473508713955711b3c1b28681c4d5a0e7f112e3c6e1d26 -> deda9a662119a217dc0ab6e\
    f684bba630d11cf55e31bde0685e634b58e7fc4c573774c<6*8d46a3d168341a>8d46a3d100
pack 794e6d6c3f72777d1b146318264c471b144c186a1233270c3b4d2c37377d7d1b281146132447663a59185952291b4068142a6814770\
    e1e05202b3248014d3a555744417d77245555112e051b287c13 -> 79679bfd93dffb1bca1863621e371426462d999d18bb26eb76ebf\
    737a88871423a9a75594c569ada00d114159a7277780aa0950c1968eaaa5762b07f2755ab11576183e24f1a8d46a3d168341a8d46a3d\
    100
pack 6044303f7b5527097f747a66790f1a5a64797a521b3e305d0f2f113374375c3b625e221f1b2818746b20616e1f7307114f4a5825331\
    f4009051d716e181811472a452058271c7f3e38054122081f7e7f48394a6e66751b2f496b76 -> 6022ecb7af9e127fbade9c7f68b4e\
    4bc5ebaf1c1ba8f576446bf717762afe8b34161e86b50d8fd991f224f25b634fb0013854edc8dc1448eaa22087be2fc7db8425084f8f\
    8ffc89cd26dae6f5ec9b5bdd100
pack 477c192d6e2b1b2f40461b651e1218654b31083e607e1c1b4012142d7a253f3e77613a5f6c7e151a1c1b6534491419165e5f4e4f613\
    6496d610934783b682e694a1e69591b283a071317741f79481e6a4d7e121e2b3e003920632972 -> 477ea6e55e6d5e40e3a6ec9160c\
    acb18c207f673364009a5a52ffd7cf7b0eecbf657349c4d9996a4642cdeaff319b625dbe1040dbf43bbd24a4f3abb41e90e930bfd934\
    77ad44dbfc4b3f20172a0714ade00
pack 32663b611b2f317e7e656a360c7e5061791b3c28564a1b406f4f353a521c0a4514130a1b3e3b77561b65395d10176623481e0b4e076\
    5261b3c316d1c32533e504c00032732667943082b44414b1c323a5125780365175f210b7a354c5b -> 32f32ebc79c5fcfeb2dac6f04\
    3c3f90d0f65556e80ef674d27e5288a948962e3dbddad9b72ae0bb9984748cfc279289b36bc589b239bfaa04cc0e02433e787881531b\
    8e4c874d1127e50be7c430b7d8db905
pack 317e555c1b3e6a2f04032e000a571b284e1b3c3d0a062750021f12107e372a5520636612600e4167371f345243052d5665513d2a2c6\
    0353e49521a0165163316235956417f361262300478724f3d0840095000193e0f22160b5c1b3d4e -> 317f95bbf1a95f84810ba0b86\
    e50ce0dafa7309ca0828f04e2bfa9aaa0b159027604cfb70f4d3a2cb4ace5684fc502d77c49a92650b6cc2ca3ac35f8b749c430025ef\
    eec2180092820e37b882c0beea6e704
pack 1b3d6e721c5f481b144c191b3d104b780166141b281a32635e113b194a5c71453d48367f371b3c410b745c2c6a31572e645e0a1b403\
    10c417f086a7b266b1b28761b3c45012e37515e79487943746d591b3e347f2d7a54014e41006269 -> 9b9e5bcef92237146666d3832\
    cf101336583d2c8c6dec82ea3e4c68b3da4ed7fdbf0820b3a97a58e5d5d64af62038c31827f847a6f5a6f50f60daf1870dda2de3c323\
    fa4b7b31b1feddfd25303ce20409c06
# An empty page is filled with carriage returns.
pack -> <11*8d46a3d168341a>8d46a3d100
unpack <11*8d46a3d168341a>8d46a3d100 -> <93*0d>
# The five spare bits of the last octet are ignored.
unpack 9846a3d168341a<10*8d46a3d168341a>8d46a3d100 -> 18<92*0d>
unpack 9846a3d168341a<10*8d46a3d168341a>8d46a3d1f8 -> 18<92*0d>
";

/// Units of texts as another program writes them, high octet first. A page is filled with 000D.
const UNITS: &str = "
units Внимание! Опасность наводнения -> 0412043d0438043c0430043d0438043500210020041e043f04300441043d043e04410442\
    044c0020043d04300432043e0434043d0435043d0438044f<11*000d>
units Πλημμύρα – μείνετε μέσα -> 03a003bb03b703bc03bc03cd03c103b100202013002003bc03b503af03bd03b503c403b5002003b\
    c03ad03c303b1<18*000d>
units تحذير من فيضان -> 062a062d0630064a063100200645064600200641064a063606270646<27*000d>
units אזהרה -> 05d005d605d405e805d4<36*000d>
units 洪水警報 -> 6d2a6c348b665831<37*000d>
units Ω€Я -> 03a920ac042f<38*000d>
units žluťoučký kůň -> 017e006c00750165006f0075010d006b00fd0020006b016f0148<28*000d>
units İstanbul’da deprem -> 0130007300740061006e00620075006c201900640061002000640065007000720065006d<23*000d>
units <E000><FFFD> -> e000fffd<39*000d>
units a<000A>b<00A0>c -> 0061000a006200a00063<36*000d>
characters 0412043d0438043c0430043d0438043500210020041e043f04300441043d043e04410442044c0020043d04300432043e04340\
    43d0435043d0438044f -> Внимание! Опасность наводнения
characters 03a003bb03b703bc03bc03cd03c103b100202013002003bc03b503af03bd03b503c403b5002003bc03ad03c303b1 -> Πλημμ\
    ύρα – μείνετε μέσα
characters 062a062d0630064a063100200645064600200641064a063606270646 -> تحذير من فيضان
characters 05d005d605d405e805d4 -> אזהרה
characters 6d2a6c348b665831 -> 洪水警報
characters 03a920ac042f -> Ω€Я
characters 017e006c00750165006f0075010d006b00fd0020006b016f0148 -> žluťoučký kůň
characters 0130007300740061006e00620075006c201900640061002000640065007000720065006d -> İstanbul’da deprem
characters e000fffd -> <E000><FFFD>
characters 0061000a006200a00063 -> a<000A>b<00A0>c
# The ends of the range: what has no unit, and the units that stand for no character, which show U+FFFD.
unit <FFFF> -> ffff
unit <10000> -> -
unit 😀 -> -
characters d800dbffdc00dfff -> <FFFD><FFFD><FFFD><FFFD>
characters d7ffe000 -> <D7FF><E000>
";

#[test]
fn characters_have_their_codes(rt: HostRuntime) -> Result<(), Fail> {
    alphabet_laws();
    packing_laws();
    ucs2_laws();
    expect_rows(&rt, rt.alloc(), CODES, 24)?;
    expect_rows(&rt, rt.alloc(), PACKED, 21)?;
    expect_rows(&rt, rt.alloc(), UNITS, 25)
}

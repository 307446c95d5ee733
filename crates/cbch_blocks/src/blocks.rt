//! The blocks that a cell's broadcast channel (CBCH) sends in a slot: the four that carry a page (3GPP TS 44.012), and
//! the four of an idle slot. What each is made of is said in `specs/Blocks.antt`, and nothing here allocates.

ghost use Rattle.std.specs.Prelude.{◌≡◌, ◌∷◌, length};
ghost use Rattle.cbch_blocks.specs.Blocks.{blocks_of_page, idle_blocks};

use cbs_page::PAGE_OCTETS;

/// How many octets a block has: its type, and a quarter of a page (3GPP TS 44.012).
pub const BLOCK_OCTETS: usize = 23;

/// How many octets of a page a block carries, behind its type octet.
const QUARTER: usize = 22;

/// The type of an idle block: not the last, with sequence number 15.
const IDLE: u8 = 0x2F;

/// The octet that fills an idle block.
const FILL: u8 = 0x2B;

/// The four blocks of a page, in the order in which they are sent (3GPP TS 44.012).
pub fn cut(page: &[u8; PAGE_OCTETS]) -> [[u8; BLOCK_OCTETS]; 4]
    ensures { result ≡ blocks_of_page page.now }
{
    [
        block(0x20, &page[..QUARTER]),
        block(0x21, &page[QUARTER..2 * QUARTER]),
        block(0x22, &page[2 * QUARTER..3 * QUARTER]),
        block(0x33, &page[3 * QUARTER..]),
    ]
}

/// The four blocks of a slot in which no page is sent (this project's own).
pub fn idle() -> [[u8; BLOCK_OCTETS]; 4]
    ensures { result ≡ idle_blocks }
{
    let mut idle = [FILL; BLOCK_OCTETS];
    idle[0] = IDLE;
    [idle; 4]
}

/// A block of this type that carries these 22 octets.
fn block(kind: u8, octets: &[u8]) -> [u8; BLOCK_OCTETS]
    requires { length octets.now ≡ 22 }
    ensures { result ≡ kind ∷ octets.now }
{
    let mut block = [kind; BLOCK_OCTETS];
    block[1..].copy_from_slice(octets);
    block
}

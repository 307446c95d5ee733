//! The 88 octets of a page (3GPP TS 23.041, clause 9.4.1): written from their fields, and read back.

ghost use Rattle.std.specs.Prelude.{◌≡◌, ◌≤◌};
ghost use Rattle.cbs_page.specs.Page.{octets_of_page, place_of, view_of, is_readable};
ghost use Rattle.cbs_page.specs.Text.{max_pages};

use crate::coding::Dcs;
use crate::serial::Serial;

/// How many octets a page has (3GPP TS 23.041, clause 9.4.1).
pub const PAGE_OCTETS: usize = 88;

/// The octets of a page before its content.
const HEADER: usize = 6;

/// What the octets of a page say.
#[derive(Clone, Copy, Debug, PartialEq, Eq)]
pub struct PageView {
    /// Which warning, and which version of it (TS 23.041, 9.4.1.2.1).
    pub serial: Serial,
    /// Source and type of the warning (TS 23.041, 9.4.1.2.2).
    pub id: u16,
    /// Language and alphabet (TS 23.041, 9.4.1.2.3).
    pub dcs: Dcs,
    /// The page's number, 1 to 15 (TS 23.041, 9.4.1.2.4).
    pub number: u8,
    /// How many pages the message has, 1 to 15 (TS 23.041, 9.4.1.2.4).
    pub total: u8,
    /// The 82 octets of the content.
    pub content: [u8; 82],
}

/// The 88 octets of page `number` of `total`: `1 <= number <= total <= 15`.
pub fn page_bytes(
    id: u16,
    serial: Serial,
    dcs: Dcs,
    number: u8,
    total: u8,
    content: &[u8; 82],
) -> [u8; PAGE_OCTETS]
    requires first { 1 ≤ number }
    requires within { number ≤ total }
    requires pages { total ≤ max_pages }
    ensures { result ≡ octets_of_page id serial dcs.0 number total content.now }
{
    let mut octets = [0; PAGE_OCTETS];
    let [serial_high, serial_low] = serial.number().to_be_bytes();
    let [id_high, id_low] = id.to_be_bytes();
    octets[0] = serial_high;
    octets[1] = serial_low;
    octets[2] = id_high;
    octets[3] = id_low;
    octets[4] = dcs.0;
    octets[5] = number << 4 | total;
    octets[HEADER..].copy_from_slice(content);
    octets
}

/// The page's number and the total in a page parameter, with 1 of 1 if either half is 0.
fn page_place(parameter: u8) -> (u8, u8)
    ensures { result ≡ place_of parameter }
{
    let number = parameter >> 4;
    let total = parameter & 0xF;
    if number == 0 || total == 0 {
        (1, 1)
    } else {
        (number, total)
    }
}

/// What the 88 octets of a page say. A page parameter with 0 in either half is page 1 of 1.
pub fn read_page(octets: &[u8; PAGE_OCTETS]) -> PageView
    ensures { result ≡ view_of octets.now }
{
    let mut content = [0; 82];
    content.copy_from_slice(&octets[HEADER..]);
    let (number, total) = page_place(octets[5]);
    PageView {
        serial: Serial::of(u16::from_be_bytes([octets[0], octets[1]])),
        id: u16::from_be_bytes([octets[2], octets[3]]),
        dcs: Dcs(octets[4]),
        number,
        total,
        content,
    }
}

impl PageView {
    /// Whether a handset can show the page: its alphabet is known, and its number isn't over the total.
    pub fn readable(&self) -> bool
        ensures { result ≡ is_readable self.now }
    {
        self.dcs.alphabet().is_some() && self.number <= self.total
    }
}

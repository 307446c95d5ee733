//! A message of the link, and when and where it was heard.

use cbsp_link::LinkMessage;

/// A message that came over the link.
#[derive(Debug, Drop)]
pub struct Heard {
    /// The slot in which it came, of 1.883 s each.
    pub slot: u64,
    /// When it came, in nanoseconds from 1970-01-01T00:00:00Z on.
    pub time: u64,
    /// The number of the packet that ends it, as the capture counts them.
    pub packet: u64,
    /// The connection over which it came: a number that both directions share.
    pub connection: u64,
    /// What it says.
    pub message: LinkMessage,
}

//! What a session believes after a reply of which nothing is kept yet, so that a call that is refused memory has
//! changed nothing.

ghost use Rattle.std.specs.Prelude.{◌≡◌};
ghost use Rattle.alert_book.specs.SessionSteps.{live_by};

use crate::session::outcome::version_after;
use crate::session::request::Request;
use crate::session::versions::Versions;
use cbsp_wire::Cell;
use reply_outcome::Outcome;

/// The versions that are believed live: those kept, and what the last reply says.
#[derive(Clone, Copy)]
pub struct LiveVersions<'a> {
    /// Those kept.
    pub versions: &'a Versions,
    /// The request that was sent last.
    pub sent: &'a Option<Request>,
    /// What its reply says.
    pub outcome: &'a Option<Outcome>,
}

impl LiveVersions<'_> {
    /// The version of an alert that is believed live in a cell, if one is. The cell is looked for at this place first,
    /// among those kept, in the last request and in its reply.
    pub fn version(&self, number: u16, cell: Cell, place: usize) -> Option<u8>
        ensures { result ≡ live_by self.now number cell }
    {
        let kept = self.versions.version(number, cell, place);
        match (self.sent, self.outcome) {
            (Some(request), Some(outcome)) => {
                version_after(request, outcome, number, cell, place, kept)
            }
            _ => kept,
        }
    }
}

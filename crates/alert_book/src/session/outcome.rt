//! What the reply to a session's message changes of what is believed of cells.

ghost use Rattle.std.specs.Prelude.{◌≡◌};
ghost use Rattle.reply_outcome.specs.Replies.{cells_asked};
ghost use Rattle.alert_book.specs.Session.{version_after};

use crate::session::request::Request;
use cbsp_wire::Cell;
use cbsp_wire::cells::contains_near;
use reply_outcome::{Outcome, cells_asked, version_by_reply};

/// The version of an alert in a cell after what a reply says of the cells that were asked. The cell is looked for at
/// this place first.
pub(crate) fn version_after(
    request: &Request,
    outcome: &Outcome,
    number: u16,
    cell: Cell,
    place: usize,
    before: Option<u8>,
) -> Option<u8>
    ensures { result
        ≡ version_after request.now outcome.now (cells_asked request.now.message) number cell before }
{
    if request.number == number && contains_near(cells_asked(&request.message), cell, place) {
        version_by_reply(request.version, outcome, cell, place, before)
    } else {
        before
    }
}

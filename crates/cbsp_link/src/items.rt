//! What lists hold (3GPP TS 48.049, 8.2.6, 8.2.10 and 8.2.11).

ghost use Rattle.std.specs.Prelude.{◌≡◌, ◌≤◌, ◌<◌, ◌+◌, ◌*◌, length, IfSome, MatchOption, None, Some};
ghost use Rattle.cbsp_link.specs.Item.{naming_of, short_cell, long_cell_at, cell_at, count_after, failure_by};
ghost use Rattle.cbsp_link.specs.Item.{cells_named, counts_named, cell_item, count_item, failure_item};
ghost use Rattle.cbsp_link.specs.Item.{cells_of_body, counts_of_body, failures_of_body};
ghost use Rattle.cbsp_link.specs.Outcome.{Gives};
ghost use Rattle.cbsp_link.specs.Run.{all_of};

use crate::fault::{LinkError, LinkFault};
use crate::iei;
use crate::message::{LinkCell, LinkCells, LinkCount, LinkCounts, LinkFailure, LinkFailures, Plmn};
use std::alloc::Global;

/// How cells are named (3GPP TS 48.049, 8.2.6, Cell Identification Discriminator).
#[derive(Clone, Copy, Debug, PartialEq, Eq)]
pub(crate) enum Naming {
    /// 0: network, location area code and cell identity.
    Global,
    /// 1: location area code and cell identity.
    LacCi,
    /// 2: cell identity.
    Ci,
    /// 3: no cell.
    Nothing,
    /// 4: network and location area code.
    Area,
    /// 5: location area code.
    Lac,
    /// 6: all cells.
    All,
}

/// The naming that a discriminator's octet says, in its low four bits; the others are spare.
fn naming_from(octet: u8) -> Option<Naming>
    ensures { result ≡ naming_of octet }
{
    match octet % 16 {
        0 => Some(Naming::Global),
        1 => Some(Naming::LacCi),
        2 => Some(Naming::Ci),
        3 => Some(Naming::Nothing),
        4 => Some(Naming::Area),
        5 => Some(Naming::Lac),
        6 => Some(Naming::All),
        _ => None,
    }
}

/// The number of two octets, the high one first.
fn pair(high: u8, low: u8) -> u16
    ensures { result ≡ high * 256 + low }
{
    u16::from(high) * 256 + u16::from(low)
}

/// What is named without octets.
fn short_cell(naming: Naming) -> Option<LinkCell>
    ensures { result ≡ short_cell naming }
{
    match naming {
        Naming::Nothing => Some(LinkCell::Nothing),
        Naming::All => Some(LinkCell::All),
        Naming::Global | Naming::LacCi | Naming::Ci | Naming::Area | Naming::Lac => None,
    }
}

/// The cell that is named by the octets at the front, and the octets after it.
fn long_cell(naming: Naming, octets: &[u8]) -> Option<(LinkCell, &[u8])>
    ensures taken { MatchOption result (long_cell_at naming octets.now ≡ None)
        (λ x. long_cell_at naming octets.now ≡ Some (x.0, x.1.now)) }
    ensures shorter { IfSome result (λ x. length x.1.now < length octets.now) }
{
    match naming {
        Naming::Global => match octets {
            [p, q, r, a, b, c, d, rest @ ..] => {
                let plmn = Plmn(*p, *q, *r);
                let cell = LinkCell::Global {
                    plmn,
                    lac: pair(*a, *b),
                    ci: pair(*c, *d),
                };
                Some((cell, rest))
            }
            _ => None,
        },
        Naming::LacCi => match octets {
            [a, b, c, d, rest @ ..] => {
                let cell = LinkCell::LacCi {
                    lac: pair(*a, *b),
                    ci: pair(*c, *d),
                };
                Some((cell, rest))
            }
            _ => None,
        },
        Naming::Ci => match octets {
            [c, d, rest @ ..] => Some((LinkCell::Ci { ci: pair(*c, *d) }, rest)),
            _ => None,
        },
        Naming::Area => match octets {
            [p, q, r, a, b, rest @ ..] => {
                let plmn = Plmn(*p, *q, *r);
                Some((
                    LinkCell::Area {
                        plmn,
                        lac: pair(*a, *b),
                    },
                    rest,
                ))
            }
            _ => None,
        },
        Naming::Lac => match octets {
            [a, b, rest @ ..] => Some((LinkCell::Lac { lac: pair(*a, *b) }, rest)),
            _ => None,
        },
        Naming::Nothing | Naming::All => None,
    }
}

/// What is named at the front of octets, whether or not it takes some, and the octets after it.
#[tactic(auto, unfolding(crate::specs::Item::cell_at))]
fn cell(naming: Naming, octets: &[u8]) -> Option<(LinkCell, &[u8])>
    ensures taken { MatchOption result (cell_at naming octets.now ≡ None)
        (λ x. cell_at naming octets.now ≡ Some (x.0, x.1.now)) }
    ensures shorter { IfSome result (λ x. length x.1.now ≤ length octets.now) }
{
    match short_cell(naming) {
        Some(cell) => Some((cell, octets)),
        None => long_cell(naming, octets),
    }
}

/// The completed broadcast at the front of octets, and the octets after it.
fn count(naming: Naming, octets: &[u8]) -> Option<(LinkCount, &[u8])>
    ensures taken { MatchOption result (count_after (cell_at naming octets.now) ≡ None)
        (λ x. count_after (cell_at naming octets.now) ≡ Some (x.0, x.1.now)) }
    ensures shorter { IfSome result (λ x. length x.1.now < length octets.now) }
{
    match cell(naming, octets) {
        Some((cell, after)) => match after {
            [high, low, info, rest @ ..] => {
                let count = LinkCount {
                    cell,
                    number: pair(*high, *low),
                    info: *info,
                };
                Some((count, rest))
            }
            _ => None,
        },
        None => None,
    }
}

/// The failure with a discriminator, at the front of the octets after that, and the octets after it.
fn failure(discriminator: u8, octets: &[u8]) -> Option<(LinkFailure, &[u8])>
    ensures taken { MatchOption result (failure_by (naming_of discriminator) octets.now ≡ None)
        (λ x. failure_by (naming_of discriminator) octets.now ≡ Some (x.0, x.1.now)) }
    ensures shorter { IfSome result (λ x. length x.1.now < length octets.now) }
{
    let Some(naming) = naming_from(discriminator) else {
        return None;
    };
    match cell(naming, octets) {
        Some((cell, after)) => match after {
            [cause, rest @ ..] => Some((
                LinkFailure {
                    cell,
                    cause: *cause,
                },
                rest,
            )),
            [] => None,
        },
        None => None,
    }
}

/// The cells that octets name, which take some each.
fn long_cells(alloc: Global, naming: Naming, octets: &[u8]) -> Result<Vec<LinkCell>, LinkError>
    ensures { Gives (λ v. v.items) result (all_of (cell_item naming) octets.now) }
{
    let mut cells = Vec::new(alloc);
    let mut left = octets;
    'items: while !left.is_empty() {
        let Some((cell, rest)) = long_cell(naming, left) else {
            return Err(LinkError::Fault(LinkFault::WrongElement(iei::CELL_LIST)));
        };
        cells.push(cell)?;
        left = rest;
    }
    Ok(cells)
}

/// The cells of a list, after its discriminator.
fn cells_after(alloc: Global, naming: Naming, octets: &[u8]) -> Result<Vec<LinkCell>, LinkError>
    ensures { Gives (λ v. v.items) result (cells_named (Some naming) octets.now) }
{
    match short_cell(naming) {
        Some(cell) => {
            if !octets.is_empty() {
                return Err(LinkError::Fault(LinkFault::WrongElement(iei::CELL_LIST)));
            }
            let mut cells = Vec::new(alloc);
            cells.push(cell)?;
            Ok(cells)
        }
        None => long_cells(alloc, naming, octets),
    }
}

/// The completed broadcasts that octets are.
fn counts_after(alloc: Global, naming: Naming, octets: &[u8]) -> Result<Vec<LinkCount>, LinkError>
    ensures { Gives (λ v. v.items) result (all_of (count_item naming) octets.now) }
{
    let mut counts = Vec::new(alloc);
    let mut left = octets;
    'items: while !left.is_empty() {
        let Some((count, rest)) = count(naming, left) else {
            return Err(LinkError::Fault(LinkFault::WrongElement(iei::BROADCASTS_COMPLETED)));
        };
        counts.push(count)?;
        left = rest;
    }
    Ok(counts)
}

/// The failures that octets are.
fn failures_after(alloc: Global, octets: &[u8]) -> Result<Vec<LinkFailure>, LinkError>
    ensures { Gives (λ v. v.items) result (all_of failure_item octets.now) }
{
    let mut failures = Vec::new(alloc);
    let mut left = octets;
    'items: while let [discriminator, after @ ..] = left {
        let Some((failure, rest)) = failure(*discriminator, after) else {
            return Err(LinkError::Fault(LinkFault::WrongElement(iei::FAILURE_LIST)));
        };
        failures.push(failure)?;
        left = rest;
    }
    Ok(failures)
}

/// The cells of the body of an element 04.
#[tactic(auto, unfolding(crate::specs::Item::cells_of_body))]
pub(crate) fn cells_of_body(alloc: Global, body: &[u8]) -> Result<LinkCells, LinkError>
    ensures { Gives (λ cells. cells) result (cells_of_body body.now) }
{
    let [_, _, discriminator, octets @ ..] = body else {
        return Err(LinkError::Fault(LinkFault::WrongElement(iei::CELL_LIST)));
    };
    match naming_from(*discriminator) {
        Some(naming) => {
            let list = cells_after(alloc, naming, octets)?;
            Ok(LinkCells { list })
        }
        None => Err(LinkError::Fault(LinkFault::WrongElement(iei::CELL_LIST))),
    }
}

/// The completed broadcasts of the body of an element 08.
#[tactic(auto, unfolding(crate::specs::Item::counts_of_body))]
pub(crate) fn counts_of_body(alloc: Global, body: &[u8]) -> Result<LinkCounts, LinkError>
    ensures { Gives (λ counts. counts) result (counts_of_body body.now) }
{
    let [_, _, discriminator, octets @ ..] = body else {
        return Err(LinkError::Fault(LinkFault::WrongElement(iei::BROADCASTS_COMPLETED)));
    };
    match naming_from(*discriminator) {
        Some(naming) => {
            let list = counts_after(alloc, naming, octets)?;
            Ok(LinkCounts { list })
        }
        None => Err(LinkError::Fault(LinkFault::WrongElement(iei::BROADCASTS_COMPLETED))),
    }
}

/// The failures of the body of an element 09.
#[tactic(auto, unfolding(crate::specs::Item::failures_of_body))]
pub(crate) fn failures_of_body(alloc: Global, body: &[u8]) -> Result<LinkFailures, LinkError>
    ensures { Gives (λ failures. failures) result (failures_of_body body.now) }
{
    match body {
        [_, _, octets @ ..] => {
            let list = failures_after(alloc, octets)?;
            Ok(LinkFailures { list })
        }
        _ => Err(LinkError::Fault(LinkFault::WrongElement(iei::FAILURE_LIST))),
    }
}

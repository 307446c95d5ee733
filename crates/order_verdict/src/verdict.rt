//! The differences of a cell.

ghost use Rattle.std.specs.Prelude.{◌≡◌, ◌++◌, ◌≤◌, AllPairs, Some, map, IfOk, OnOk};
ghost use Rattle.std.specs.List.{flat_map};
ghost use Rattle.std.specs.List.Sorted.{IsPermutation, IsSortedByKey};
ghost use Rattle.order_verdict.specs.Judged.{own_pages_in};
ghost use Rattle.order_verdict.specs.Kept.{air_kept, ordered_kept};
ghost use Rattle.order_verdict.specs.Verdict.{air_differences, all_order_differences, at_slot, more_differences};
ghost use Rattle.order_verdict.specs.Verdict.{of_air};
ghost use Rattle.order_verdict.specs.Verdict.{ordered_differences, told_differences, told_differences_by};
ghost use Rattle.order_verdict.specs.Verdict.{AreOrderDifferences};
ghost use Rattle.verification.specs.Difference.{first_difference, page_numbers};
ghost use Rattle.verification.specs.Kept.{asked_kept};
ghost use Rattle.verification.specs.declared.difference.Kind.TheVariants as kinds;

use crate::air::{AirPage, pages_on_air};
use crate::counts::{first_more, whole_before};
use crate::difference::{OrderDifference, OrderKind};
use crate::judged::own_pages;
use crate::ordered::{Ordered, ordered_messages};
use crate::unordered::{push_all_unanswered, push_all_unordered};
use cbs_page::Serial;
use cell_orders::OrderRow;
use std::alloc::{AllocError, Global};
use verification::{
    Asked, Difference, JudgedPage, Kind, push_again_differences, push_broadcast_differences,
    push_first,
};

/// The most pages of a message.
const MAX_PAGES: u8 = cbs_page::MAX_PAGES as u8;

/// Appends the differences of a message whose pages read otherwise. The only error is out of memory.
fn push_otherwise(
    found: &mut Vec<Difference>,
    asked: &Asked,
    pages: &[JudgedPage],
) -> Result<(), AllocError>
    ensures { OnOk result (found.new.items ≡ found.old.items
        ++ flat_map (λ number. first_difference (asked_kept asked.now) pages.now (kinds.Otherwise number))
        page_numbers) }
{
    for place in 0..MAX_PAGES {
        push_first(found, asked, pages, Kind::Otherwise { page: place + 1 })?;
    }
    Ok(())
}

/// Appends the differences of a message's pages and broadcasts. The only error is out of memory.
fn push_air_differences(
    found: &mut Vec<Difference>,
    slots: u16,
    ordered: &Ordered,
    pages: &[JudgedPage],
) -> Result<(), AllocError>
    requires { AllPairs (λ a b. a.slot ≤ b.slot) pages.now }
    ensures { OnOk result (found.new.items
        ≡ found.old.items ++ air_differences slots (ordered_kept ordered.now) pages.now) }
{
    push_otherwise(found, &ordered.late, pages)?;
    push_first(found, &ordered.early, pages, Kind::BeforeStart)?;
    push_first(found, &ordered.late, pages, Kind::AfterStop)?;
    push_first(found, &ordered.late, pages, Kind::AfterLast)?;
    push_broadcast_differences(found, slots, &ordered.late, pages)?;
    push_again_differences(found, slots, &ordered.late, pages)
}

/// Appends differences of pages and broadcasts. The only error is out of memory.
fn push_all_of_air(
    found: &mut Vec<OrderDifference>,
    differences: &[Difference],
) -> Result<(), AllocError>
    ensures { OnOk result (found.new.items ≡ found.old.items ++ map of_air differences.now) }
{
    for difference in differences {
        found.push(OrderDifference::of_air(difference))?;
    }
    Ok(())
}

/// A difference of a message at a slot.
fn at_slot(asked: &Asked, kind: OrderKind, slot: usize) -> OrderDifference
    ensures { result ≡ at_slot (asked_kept asked.now) kind slot }
{
    OrderDifference {
        slot,
        id: asked.id,
        serial: Serial::of(asked.serial),
        kind,
    }
}

/// Appends the difference of a message of which more broadcasts come than were requested. The only error is out of
/// memory.
fn push_more(
    found: &mut Vec<OrderDifference>,
    asked: &Asked,
    pages: &[JudgedPage],
) -> Result<(), AllocError>
    ensures { OnOk result (found.new.items ≡ found.old.items ++ more_differences (asked_kept asked.now) pages.now) }
{
    if asked.broadcasts == 0 {
        return Ok(());
    }
    if let Some(slot) = first_more(asked.pages(), asked.broadcasts, pages) {
        found.push(at_slot(asked, OrderKind::MoreThanOrdered, slot))?;
    }
    Ok(())
}

/// Appends the difference of an answer that ended a message and says how many broadcasts came, if they are others. The
/// only error is out of memory.
fn push_if_untrue(
    found: &mut Vec<OrderDifference>,
    slots: u16,
    delay: u16,
    asked: &Asked,
    pages: &[JudgedPage],
    end: u32,
    told: u16,
) -> Result<(), AllocError>
    ensures { OnOk result (found.new.items ≡ found.old.items
        ++ told_differences_by slots delay (asked_kept asked.now) pages.now (Some end) (Some told)) }
{
    let last = end as usize + usize::from(delay);
    if last > usize::from(slots) {
        return Ok(());
    }
    let air = whole_before(asked.pages(), pages, last);
    if usize::from(told) != air {
        found.push(at_slot(asked, OrderKind::Answer { told, air }, end as usize))?;
    }
    Ok(())
}

/// Appends the difference of the answer that ended a message, if there is one. The only error is out of memory.
fn push_told(
    found: &mut Vec<OrderDifference>,
    slots: u16,
    delay: u16,
    ordered: &Ordered,
    pages: &[JudgedPage],
) -> Result<(), AllocError>
    ensures { OnOk result (found.new.items
        ≡ found.old.items ++ told_differences slots delay (ordered_kept ordered.now) pages.now) }
{
    match (ordered.ended, ordered.told) {
        (Some(end), Some(told)) => {
            push_if_untrue(found, slots, delay, &ordered.late, pages, end, told)
        }
        (Some(_), None) => Ok(()),
        (None, _) => Ok(()),
    }
}

/// Appends the differences of a message of which these pages were sent. The only error is out of memory.
fn push_message(
    alloc: Global,
    found: &mut Vec<OrderDifference>,
    slots: u16,
    delay: u16,
    ordered: &Ordered,
    pages: &[JudgedPage],
) -> Result<(), AllocError>
    requires { AllPairs (λ a b. a.slot ≤ b.slot) pages.now }
    ensures { OnOk result (found.new.items
        ≡ found.old.items ++ ordered_differences slots delay (ordered_kept ordered.now) pages.now) }
{
    let mut differences = Vec::new(alloc);
    push_air_differences(&mut differences, slots, ordered, pages)?;
    push_all_of_air(found, &differences)?;
    push_more(found, &ordered.late, pages)?;
    push_told(found, slots, delay, ordered, pages)
}

/// Appends the differences of messages. The only error is out of memory.
fn push_messages(
    alloc: Global,
    found: &mut Vec<OrderDifference>,
    slots: u16,
    delay: u16,
    messages: &[Ordered],
    air: &[AirPage],
) -> Result<(), AllocError>
    requires { AllPairs (λ a b. a.slot ≤ b.slot) (map air_kept air.now) }
    ensures { OnOk result (found.new.items ≡ found.old.items
        ++ flat_map (λ m. ordered_differences slots delay m (own_pages_in m (map air_kept air.now)))
        (map ordered_kept messages.now)) }
{
    for ordered in messages {
        let pages = own_pages(alloc, ordered, air)?;
        push_message(alloc, found, slots, delay, ordered, &pages)?;
    }
    Ok(())
}

/// What isn't as a cell was ordered and answered by these rows, where its channel sent these blocks in so many slots:
/// each difference once, by slot, identifier, serial number and kind. A block is its type and 22 octets (3GPP TS
/// 44.012), and four of them are a slot; a page has one to four blocks. What was ordered is judged `delay` slots later
/// than its answer came, since equipment takes time; but a page that comes before the answer comes too early.
///
/// # Errors
///
/// Out of memory.
pub fn verdict_of(
    alloc: Global,
    slots: u16,
    delay: u16,
    rows: &[OrderRow],
    blocks: &[[u8; 23]],
) -> Result<Vec<OrderDifference>, AllocError>
    ensures { IfOk result (λ found. AreOrderDifferences slots delay rows.now blocks.now found.items) }
{
    let messages = ordered_messages(alloc, delay, rows)?;
    let air = pages_on_air(alloc, blocks)?;
    let mut found = Vec::new(alloc);
    push_messages(alloc, &mut found, slots, delay, &messages, &air)?;
    push_all_unanswered(&mut found, rows)?;
    push_all_unordered(&mut found, &messages, &air)?;
    found.sort_by_key(|difference| difference.key())?;
    Ok(found)
}

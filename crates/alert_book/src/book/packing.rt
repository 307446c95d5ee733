//! The pages of a book's texts, which are packed side by side, or one after the other.

ghost use Rattle.std.specs.Prelude.{◌≡◌, ◌≢◌, ◌⊎◌, Ok, Some, IfErr, IfOk, map};
ghost use Rattle.std.specs.List.{AllZip};
ghost use Rattle.std.specs.Str.{chars};
ghost use Rattle.cbs_page.specs.Text.{IsTextFault};
ghost use Rattle.alert_book.specs.Book.{fault_at, refused, sending_of, ArePagesOf, HavePages, HasWrongText};
ghost use Rattle.alert_book.specs.PackingSteps.{IsFirstFault, IsOrderPacked};

use crate::book::order::{Action, Order, Sending};
use crate::fault::{BookFault, BookFaultKind, fault_of_book};
use cbs_page::{Paged, TextFault, paginate};
use rayon::prelude::*;
use std::alloc::{AllocError, AllocGlobal, Global};
use std::thread::Threads;

/// How many texts a thread packs at least, so that also short ones, of about a microsecond each, are worth its start.
const LEAST_TEXTS: usize = 32;

/// The pages of an order's text, if it has one.
pub(crate) fn pages_of(alloc: Global, order: &Order) -> Result<Option<Paged>, TextFault>
    ensures ok { IfOk result (λ paged. ArePagesOf (sending_of order.now.action) paged) }
    ensures err { IfErr result (λ why. (sending : Sending) × (sending_of order.now.action ≡ Some sending)
        × IsTextFault sending.language (chars sending.text) why) }
{
    match &order.action {
        Action::Write(sending) | Action::Update { sending, .. } => {
            let paged = paginate(alloc, &sending.text.text, &sending.language.text)?;
            Ok(Some(paged))
        }
        Action::Stop(_) => Ok(None),
    }
}

/// The fault of a book in whose row of this number a text can't be sent.
fn text_fault(row: u32, why: TextFault) -> BookFault
    ensures { (result ≡ refused) ⊎ ((why ≢ TextFault.Refused) × (result ≡ fault_at row (BookFaultKind.Text why))) }
{
    match why {
        TextFault::Refused => fault_of_book(BookFaultKind::Refused),
        _ => BookFault {
            row,
            kind: BookFaultKind::Text(why),
        },
    }
}

/// The pages of an order's text, or the fault of a book where it is the first that can't be sent.
fn pack_order(alloc: Global, order: &Order) -> Result<Option<Paged>, BookFault>
    ensures { IsOrderPacked order.now result }
{
    match pages_of(alloc, order) {
        Ok(paged) => Ok(paged),
        Err(why) => Err(text_fault(order.row, why)),
    }
}

/// Packs the text of each order, in as many threads as there are processors.
fn pack_each<T: AllocGlobal + Threads + Sync>(
    rt: &T,
    orders: &[Order],
) -> Result<Vec<Result<Option<Paged>, BookFault>>, AllocError>
    ensures { IfOk result (λ packed. AllZip IsOrderPacked orders.now packed.items) }
{
    let alloc = rt.alloc();
    orders
        .par_iter()
        .with_min_len(LEAST_TEXTS)
        .map(
            |order: &Order| -> Result<Option<Paged>, BookFault>
                ensures { IsOrderPacked order.now result }
            { pack_order(alloc, order) },
        )
        .collect(rt, alloc)
}

/// The pages of all orders, or the first fault.
fn in_order(
    alloc: Global,
    packed: Vec<Result<Option<Paged>, BookFault>>,
) -> Result<Vec<Option<Paged>>, BookFault>
    ensures ok { IfOk result (λ pages. packed.items ≡ map Ok pages.items) }
    ensures err { IfErr result (λ fault. (fault ≡ refused) ⊎ IsFirstFault packed.items fault) }
{
    let mut pages = Vec::new(alloc);
    for packed in packed {
        match packed {
            Ok(paged) => {
                if pages.push(paged).is_err() {
                    return Err(fault_of_book(BookFaultKind::Refused));
                }
            }
            Err(fault) => return Err(fault),
        }
    }
    Ok(pages)
}

/// Packs the text of each order, one after the other.
fn pack_in_turn(
    alloc: Global,
    orders: &[Order],
) -> Result<Vec<Result<Option<Paged>, BookFault>>, AllocError>
    ensures { IfOk result (λ packed. AllZip IsOrderPacked orders.now packed.items) }
{
    let mut packed = Vec::with_capacity(alloc, orders.len())?;
    for order in orders {
        packed.push(pack_order(alloc, order))?;
    }
    Ok(packed)
}

/// The pages of all orders, of what came of their texts, or the fault of the first that can't be sent.
fn pages_packed(
    alloc: Global,
    orders: &[Order],
    packed: Result<Vec<Result<Option<Paged>, BookFault>>, AllocError>,
) -> Result<Vec<Option<Paged>>, BookFault>
    requires { IfOk packed (λ packed. AllZip IsOrderPacked orders.now packed.items) }
    ensures ok { IfOk result (λ pages. HavePages orders.now pages.items) }
    ensures err { IfErr result (λ fault. (fault ≡ refused) ⊎ HasWrongText orders.now fault) }
{
    match packed {
        Ok(packed) => in_order(alloc, packed),
        Err(_) => Err(fault_of_book(BookFaultKind::Refused)),
    }
}

/// The pages of all orders, whose texts are packed side by side, or the fault of the first that can't be sent.
pub(crate) fn all_pages<T: AllocGlobal + Threads + Sync>(
    rt: &T,
    orders: &[Order],
) -> Result<Vec<Option<Paged>>, BookFault>
    ensures ok { IfOk result (λ pages. HavePages orders.now pages.items) }
    ensures err { IfErr result (λ fault. (fault ≡ refused) ⊎ HasWrongText orders.now fault) }
{
    pages_packed(rt.alloc(), orders, pack_each(rt, orders))
}

/// The same, of texts that are packed one after the other, in the calling thread.
pub(crate) fn all_pages_in_turn(
    alloc: Global,
    orders: &[Order],
) -> Result<Vec<Option<Paged>>, BookFault>
    ensures ok { IfOk result (λ pages. HavePages orders.now pages.items) }
    ensures err { IfErr result (λ fault. (fault ≡ refused) ⊎ HasWrongText orders.now fault) }
{
    pages_packed(alloc, orders, pack_in_turn(alloc, orders))
}

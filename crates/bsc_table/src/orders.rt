//! Orders: the cells that a message of the warning centre names, and the command to each of them.

ghost use Rattle.std.specs.Prelude.{◌≡◌, ℕ, List, Ok, Err, IfOk, MatchResult};
ghost use Rattle.cbsp_wire.specs.Meaning.{IsMessage};
ghost use Rattle.bsc_table.specs.Orders.{IsWellFormed, order_of, category_of, is_basic};

use crate::command::{Category, Command};
use cbsp_wire::{Cell, Message, cause};

/// The category that a value stands for: 0 high, 1 background, 2 normal, and normal where it is absent. None for any
/// other value.
fn category_of(value: Option<u8>) -> Option<Category>
    ensures { result ≡ category_of value }
{
    match value {
        None | Some(2) => Some(Category::Normal),
        Some(0) => Some(Category::High),
        Some(1) => Some(Category::Background),
        Some(_) => None,
    }
}

/// Whether the value stands for the basic channel: 0, or absent.
fn is_basic(channel: Option<u8>) -> bool
    ensures { result ≡ is_basic channel }
{
    match channel {
        None | Some(0) => true,
        Some(_) => false,
    }
}

/// The cells that a message of the warning centre names, in its order, and the command to each of them. No memory is
/// taken.
///
/// # Errors
///
/// The first of these causes (3GPP TS 48.049, 8.2, Cause) that applies: 04 for a reply, which is no order; 01 for a
/// category other than high, background and normal; 0C for a channel other than the basic one.
//
// Longer than others for the fields of a write, which it names twice.
pub fn orders_of(message: Message) -> Result<(Vec<Cell>, Command), u8>
    ensures order { MatchResult result (λ order. order_of message ≡ Ok (order.0.items, order.1))
        (λ cause. order_of message ≡ Err cause) }

    // Of a message that octets mean, which is what is read, the command is well-formed.
    ensures formed { (octets : List ℕ) → IsMessage octets message → IfOk result (λ order. IsWellFormed order.1) }
{
    match message {
        Message::Write {
            id,
            new_serial,
            old_serial,
            cells,
            channel,
            category,
            period,
            broadcasts,
            dcs,
            contents,
        } => {
            let Some(category) = category_of(category) else {
                return Err(cause::PARAMETER_VALUE_INVALID);
            };
            if !is_basic(channel) {
                return Err(cause::EXTENDED_CHANNEL_NOT_SUPPORTED);
            }
            let command = Command::Write {
                id,
                serial: new_serial,
                replaces: old_serial,
                category,
                period,
                broadcasts,
                dcs,
                contents,
            };
            Ok((cells.list, command))
        }
        Message::Kill {
            id,
            old_serial,
            cells,
            channel,
        } => {
            if !is_basic(channel) {
                return Err(cause::EXTENDED_CHANNEL_NOT_SUPPORTED);
            }
            Ok((
                cells.list,
                Command::Kill {
                    id,
                    serial: old_serial,
                },
            ))
        }
        _ => Err(cause::UNRECOGNISED_MESSAGE),
    }
}

//! The names of a book's rows so far.

ghost use Rattle.std.specs.Prelude.{◌≡◌, ◌<◌, ◌≤◌, ◌++◌, ◌∷◌, [], length, IfSome, OnErr, OnOk};
ghost use Rattle.std.specs.HashMap.{get_by_text};
ghost use Rattle.alert_book.specs.NameSteps.{AreNames, known_after};
ghost use Rattle.alert_book.specs.Row.{updates};

use crate::book::order::{Action, Order};
use std::alloc::{AllocError, Global};
use std::collections::HashMap;

/// What is known of a name that some order has.
#[derive(Clone, Copy, Debug)]
pub struct Known {
    /// The place of its first order, from 0.
    pub first: u16,
    /// How many orders update it.
    pub updates: u16,
}

/// The names of orders, each with what is known of it, so that no row looks at all orders before it.
#[derive(Debug, Drop)]
pub struct Names {
    by_name: HashMap<String, Known>,
}

/// Whether an action is an update.
fn is_update(action: &Action) -> bool
    ensures { result ≡ updates action.now }
{
    match action {
        Action::Update { .. } => true,
        Action::Write(_) | Action::Stop(_) => false,
    }
}

/// What is known of a name once one more order of it has this place.
fn known_after(known: Option<Known>, place: u16, order: &Order) -> Known
    requires { IfSome known (λ k. k.updates < 65535) }
    ensures { result ≡ known_after known place order.now }
{
    let more = u16::from(is_update(&order.action));
    match known {
        Some(known) => Known {
            first: known.first,
            updates: known.updates + more,
        },
        None => Known {
            first: place,
            updates: more,
        },
    }
}

impl Names {
    /// None. It takes no memory.
    pub(crate) fn new(alloc: Global) -> Names
        ensures { AreNames result [] }
    {
        Names {
            by_name: HashMap::new(alloc),
        }
    }

    /// What is known of a name.
    pub(crate) fn known(&self, name: &str) -> Option<Known>
        ensures { result ≡ get_by_text self.now.by_name name.now }
    {
        match self.by_name.get(name) {
            Some(known) => Some(*known),
            None => None,
        }
    }

    /// Adds one more order behind these.
    ///
    /// # Errors
    ///
    /// `AllocError` if out of memory; nothing changes then.
    pub(crate) fn add(
        &mut self,
        alloc: Global,
        orders: &[Order],
        order: &Order,
    ) -> Result<(), AllocError>
        requires few { length orders.now ≤ 4096 }
        requires names { AreNames self.old orders.now }
        ensures added { OnOk result (AreNames self.new (orders.now ++ order.now ∷ [])) }
        ensures refused { OnErr result (AreNames self.new orders.now) }
    {
        let name = order.name.text.as_str();
        let known = known_after(self.known(name), orders.len() as u16, order);
        let key = String::from_str(alloc, name)?;
        self.by_name.insert(key, known)?;
        Ok(())
    }
}

//! The messages that a cell accepted, each with its pages that came.

ghost use Rattle.std.specs.Prelude.{◌≡◌, find, map, IfOk};
ghost use Rattle.std.specs.Option.{option_copied, option_map};
ghost use Rattle.verification.specs.ByName.{AreByName};
ghost use Rattle.verification.specs.Came.{came_asked, AllHavePages};
ghost use Rattle.verification.specs.Explained.{is_message_of};
ghost use Rattle.verification.specs.Kept.{asked_kept};

use crate::asked::Asked;
use crate::difference::Difference;
use crate::judged::{JudgedPage, judged_pages};
use crate::sent::SentPage;
use std::alloc::{AllocError, Global};

/// A message that a cell accepted, and its pages that came, in the order of their slots.
#[derive(Drop)]
pub struct Came<'a> {
    /// The message.
    pub asked: Asked<'a>,
    /// Its pages, each judged.
    pub pages: Vec<JudgedPage>,
}

impl<'a> Came<'a> {
    /// Whether it is the message of a difference.
    fn is_message_of(&self, difference: &Difference) -> bool
        ensures { result ≡ is_message_of difference.now (came_asked self.now) }
    {
        self.asked.id == difference.id && self.asked.serial == difference.serial.number()
    }
}

/// Messages, each with its pages of those that were sent, by name: each page is judged once. The only error is out of
/// memory.
pub fn messages_with_pages<'a>(
    alloc: Global,
    messages: &[Asked<'a>],
    sent: &[SentPage],
) -> Result<Vec<Came<'a>>, AllocError>
    requires { AreByName sent.now }
    ensures asked { IfOk result (λ came. map came_asked came.items ≡ map asked_kept messages.now) }
    ensures pages { IfOk result (λ came. AllHavePages sent.now came.items) }
{
    let mut came = Vec::new(alloc);
    for asked in messages {
        let pages = judged_pages(alloc, asked, sent)?;
        came.push(Came {
            asked: *asked,
            pages,
        })?;
    }
    Ok(came)
}

/// The message of a difference, with its pages, if it is one of these.
pub fn message_of<'c, 'a>(came: &'c [Came<'a>], difference: &Difference) -> Option<&'c Came<'a>>
    ensures found { option_copied result ≡ find (λ k. is_message_of difference.now (came_asked k)) came.now }
    ensures asked { option_map came_asked (option_copied result)
        ≡ find (is_message_of difference.now) (map came_asked came.now) }
{
    for message in came {
        if message.is_message_of(difference) {
            return Some(message);
        }
    }
    None
}

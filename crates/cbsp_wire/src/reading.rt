//! Reading a message.

ghost use Rattle.std.specs.Prelude.{◌≡◌, IfOk, IfErr, IfSome, MatchResult};
ghost use Rattle.cbsp_wire.specs.Body.{elements_in};
ghost use Rattle.cbsp_wire.specs.Walk.{walk_of};
ghost use Rattle.cbsp_wire.specs.Refusals.{fault_of_walk, first_fault, reported_fault};
ghost use Rattle.cbsp_wire.specs.ReadingSteps.{HasHeader};
ghost use Rattle.cbsp_wire.specs.Meaning.{IsMessage};

use crate::cause;
use crate::fault::WireFault;
use crate::message::Message;
use crate::message::message_type::MessageType;
use crate::reading::elements::WalkEnd;
use crate::reading::places::Elements;
use crate::reading::range::{elements_are_valid, has_mandatory};
use crate::reading::value::message_from_elements;
use std::alloc::Global;

pub(crate) mod elements;
pub(crate) mod places;
pub(crate) mod range;
pub(crate) mod value;

/// The first fault of a message's elements.
fn fault_of_elements(elements: &Elements<'_>) -> Option<WireFault>
    ensures first { result ≡ fault_of_walk elements.now.message_type (elements_in elements.now)
        (walk_of elements.now.message_type elements.now.octets).stop }
    ensures reported { IfSome result (λ fault. reported_fault fault ≡ Some fault) }
{
    let end = elements.end();
    if end == WalkEnd::CutOff {
        return Some(WireFault::Truncated);
    }
    if !has_mandatory(elements) {
        return Some(WireFault::Cause(cause::MISSING_MANDATORY_ELEMENT));
    }
    if end == WalkEnd::UnexpectedElement {
        return Some(WireFault::Cause(cause::PARAMETER_NOT_RECOGNISED));
    }
    if elements_are_valid(elements) {
        None
    } else {
        Some(WireFault::Cause(cause::PARAMETER_VALUE_INVALID))
    }
}

/// The elements of a message without a fault, or its first fault.
#[tactic(auto, unfolding(crate::specs::Refusals::first_fault))]
fn faultless(octets: &[u8]) -> Result<Elements<'_>, WireFault>
    ensures faultless { IfOk result (λ _. first_fault octets.now ≡ None) }
    ensures header { IfOk result (λ elements. HasHeader octets.now elements.message_type elements.octets) }
    ensures fault { IfErr result (λ fault. first_fault octets.now ≡ Some fault) }
    ensures reported { IfErr result (λ fault. reported_fault fault ≡ Some fault) }
{
    let [octet, a, b, c, rest @ ..] = octets else {
        return Err(WireFault::Truncated);
    };
    let length = usize::from(*a) * 65536 + usize::from(*b) * 256 + usize::from(*c);
    if rest.len() < length {
        return Err(WireFault::Truncated);
    }
    if length < rest.len() {
        return Err(WireFault::TrailingBytes);
    }
    let Some(message_type) = MessageType::from_octet(*octet) else {
        return Err(WireFault::Cause(cause::UNRECOGNISED_MESSAGE));
    };
    let elements = Elements::take(message_type, rest);
    match fault_of_elements(&elements) {
        Some(fault) => Err(fault),
        None => Ok(elements),
    }
}

/// The message that octets mean.
///
/// # Errors
///
/// The first of these that applies:
///
/// 1. `Truncated`: fewer than 4 octets, or fewer than the length field says after them.
/// 2. `TrailingBytes`: more than the length field says.
/// 3. `Cause(0x04)`: the type is not one of the six.
/// 4. `Truncated`: an element goes past the end. Elements are taken from the front, up to the first that isn't of this
///    message.
/// 5. `Cause(0x05)`: a mandatory element isn't among those taken.
/// 6. `Cause(0x00)`: an element isn't of this message.
/// 7. `Cause(0x01)`: an element other than 01 comes twice, or a value is out of its range.
/// 8. `Refused`: out of memory.
pub fn read(alloc: Global, octets: &[u8]) -> Result<Message, WireFault>
    // What is read is what the octets mean.
    ensures meant { IfOk result (λ m. IsMessage octets.now m) }
    // What the octets mean is read, unless out of memory.
    ensures complete { (m : Message) → IsMessage octets.now m
        → MatchResult result (λ read. read ≡ m) (λ fault. fault ≡ WireFault.Refused) }
    // Which refusal it is.
    ensures first_fault { IfErr result (λ fault. first_fault octets.now ≡ reported_fault fault) }
    // Out of memory is reported only if the octets mean something.
    ensures memory_last { IfErr result (λ fault. fault ≡ WireFault.Refused → (m : Message) × IsMessage octets.now m) }
{
    let elements = faultless(octets)?;
    match message_from_elements(alloc, &elements) {
        Ok(message) => Ok(message),
        Err(_) => Err(WireFault::Refused),
    }
}

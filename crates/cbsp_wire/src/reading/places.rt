//! The elements of a message by their numbers, after one walk over them.

ghost use Rattle.std.specs.Prelude.{◌≡◌, ◌<◌, ◌∷◌, [], ℕ, List, length, IfSome, MatchOption, Ok, not};
ghost use Rattle.cbsp_wire.specs.Body.{Body, elements_in};
ghost use Rattle.cbsp_wire.specs.Element.{bodies_of};
ghost use Rattle.cbsp_wire.specs.Places.{AreNoted, HasAllOf, IsNoted};
ghost use Rattle.cbsp_wire.specs.Range.{comes_once, is_nothing};
ghost use Rattle.cbsp_wire.specs.Table.{size_of};
ghost use Rattle.cbsp_wire.specs.Walk.{front_of, walk_of};

use crate::message::iei;
use crate::message::message_type::MessageType;
use crate::reading::elements::{WalkEnd, find, front};
use std::marker::Model;

/// The numbers of elements are below this.
const NUMBER_LIMIT: usize = 20;

/// Where a message has elements of a number.
#[derive(Clone, Copy)]
pub(crate) enum Place<'a> {
    /// Nowhere.
    Nowhere,
    /// One of them stands at the front of these octets.
    Once(&'a [u8]),
    /// The first of several stands at the front of these octets.
    Again(&'a [u8]),
}

/// The elements of a message: what the walk over its octets takes, and where the first of each number stands.
#[derive(Drop)]
pub(crate) struct Elements<'a> {
    message_type: MessageType,
    octets: &'a [u8],
    end: WalkEnd,
    places: [Place<'a>; NUMBER_LIMIT],
}

impl<'a> Model for Elements<'a> {
    ghost use Rattle.std.specs.Prelude.{◌≡◌, []};
    ghost use Rattle.cbsp_wire.specs.Body.{Body};
    ghost use Rattle.cbsp_wire.specs.Places.{AreNoted};
    ghost use Rattle.cbsp_wire.specs.Walk.{walk_of};

    ghost Value = { Body };

    ghost view = { λ e. record { message_type = e.message_type; octets = e.octets.now } };

    ghost invariant = { λ e. (e.end ≡ (walk_of e.message_type e.octets.now).stop)
        × AreNoted (record { message_type = e.message_type; octets = e.octets.now }) [] e.places };
}

/// The place after one more element of its number, at the front of these octets.
fn noted<'a>(place: Place<'a>, from: &'a [u8]) -> Place<'a>
    ensures { (body : Body) (n : ℕ) (first rest : List ℕ)
        → front_of body.message_type from.now ≡ Ok (record { number = n; body = first }, rest)
        → IsNoted body from.now n place.entry
        → IsNoted body rest n result }
{
    match place {
        Place::Nowhere => Place::Once(from),
        Place::Once(first) => Place::Again(first),
        Place::Again(_) => place,
    }
}

/// Notes one more element, of this number and at the front of these octets.
fn note<'a>(places: &mut [Place<'a>; NUMBER_LIMIT], number: u8, from: &'a [u8])
    requires { number < 20 }
    ensures { (body : Body) (first rest : List ℕ)
        → front_of body.message_type from.now ≡ Ok (record { number = number; body = first }, rest)
        → AreNoted body from.now places.old
        → AreNoted body rest places.new }
{
    let index = usize::from(number);
    places[index] = noted(places[index], from);
}

impl<'a> Elements<'a> {
    /// The elements that octets after the header of a message begin with.
    pub(crate) fn take(message_type: MessageType, octets: &'a [u8]) -> Elements<'a>
        ensures { result ≡ record { message_type = message_type; octets = octets.now } }
    {
        let mut places = [Place::Nowhere; NUMBER_LIMIT];
        let mut left = octets;
        'walk: loop {
            match front(message_type, left) {
                Ok((number, _, rest)) => {
                    note(&mut places, number, left);
                    left = rest;
                }
                Err(end) => {
                    return Elements {
                        message_type,
                        octets,
                        end,
                        places,
                    };
                }
            }
        }
    }

    /// The type of the message.
    pub(crate) fn message_type(&self) -> MessageType
        ensures { result ≡ self.now.message_type }
    {
        self.message_type
    }

    /// Why no more elements are taken.
    pub(crate) fn end(&self) -> WalkEnd
        ensures { result ≡ (walk_of self.now.message_type self.now.octets).stop }
    {
        self.end
    }

    /// Where the elements of a number stand.
    fn place(&self, number: u8) -> Place<'a>
        ensures { IsNoted self.now [] number result }
    {
        match self.places.get(usize::from(number)) {
            Some(place) => *place,
            None => Place::Nowhere,
        }
    }

    /// Whether there is an element of this number.
    #[tactic(auto, using(crate::proofs::Places::none_left))]
    pub(crate) fn has(&self, number: u8) -> bool
        ensures { result ≡ not (is_nothing (bodies_of number (elements_in self.now))) }
    {
        match self.place(number) {
            Place::Nowhere => false,
            Place::Once(_) | Place::Again(_) => true,
        }
    }

    /// Whether the element comes at most once, or may come often.
    #[tactic(auto, using(crate::proofs::Places::none_left))]
    pub(crate) fn comes_once(&self, number: u8) -> bool
        ensures { result ≡ comes_once number (elements_in self.now) }
    {
        if number == iei::MESSAGE_CONTENT {
            return true;
        }
        match self.place(number) {
            Place::Nowhere | Place::Once(_) => true,
            Place::Again(_) => false,
        }
    }

    /// The octets from the first element of this number on, or none if there is no such element.
    pub(crate) fn octets_from(&self, number: u8) -> &'a [u8]
        ensures { HasAllOf self.now number result.now }
    {
        match self.place(number) {
            Place::Nowhere => &[],
            Place::Once(octets) | Place::Again(octets) => octets,
        }
    }

    /// The body of the first element of this number.
    pub(crate) fn first(&self, number: u8) -> Option<&'a [u8]>
        ensures bodies { MatchOption result (bodies_of number (elements_in self.now) ≡ [])
            (λ body. (others : List (List ℕ)) × (bodies_of number (elements_in self.now) ≡ body.now ∷ others)) }
        ensures sized { IfSome result (λ body. length body.now ≡ size_of number body.now) }
    {
        match find(self.message_type, number, self.octets_from(number)) {
            Some((body, _)) => Some(body),
            None => None,
        }
    }
}

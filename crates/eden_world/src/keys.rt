//! Which turn comes next.
ghost use Rattle.std.specs.Prelude.{◌≡◌, ◌↔◌, ◌≤◌, ◌∷◌, [], ℕ, false, IfSome, IsTrue, None, Some};
ghost use Rattle.std.specs.List.{Contains, find};
ghost use Rattle.passive_store.specs.Seen.{disk_seen};
ghost use Rattle.journal.specs.World.{World as Model};
ghost use Rattle.journal.specs.Enabled as journal;
ghost use Rattle.journal.specs.declared.event.Key.{Key as AnyKey};
ghost use Rattle.agenda.specs.Places.{at_place};
ghost use Rattle.runs.specs.Reached.{IsReached};
ghost use Rattle.eden_world.specs.InHand.{Stands};
ghost use Rattle.eden_world.specs.Listed.{HasTurn, mail_keys, keys_at, keys_from, shell_hears, station_count};
ghost use Rattle.eden_world.specs.Seated.{FitsTogether};

use crate::World;
use crate::breaks::is_named;
use agenda::key_or_left;
use capability::Uid;
use invocation::{Calls, Message};
use journal::Key;
use passive_store::Store;
use std::ops::ControlFlow;

// The uid in the keys of turns that are no Eject's.
const NO_UID: Uid = Uid {
    node: 0,
    epoch: 0,
    serial: 0,
};

// The key of a delivery.
fn delivery(to: u8, from: u8) -> Key
    ensures { result ≡ journal.delivery to from }
{
    Key {
        station: to,
        kind: 1,
        sender: from,
        uid: NO_UID,
        process: 0,
    }
}

// Whether a key comes past the last one.
fn is_past(last: Option<Key>, key: Key) -> bool
    ensures { result ≡ journal.is_past last key }
{
    match last {
        Some(last) => last < key,
        None => true,
    }
}

// Whether the last key comes at a later station, so that no key of this one is past it.
fn is_left(last: Option<Key>, number: u8) -> bool
    ensures { IsTrue result → (key : AnyKey) → key.station ≡ number → journal.is_past last key ≡ false }
{
    match last {
        Some(last) => number < last.station,
        None => false,
    }
}

// Whether the last key comes behind each delivery at a station.
fn is_behind_mail(last: Option<Key>, to: u8) -> bool
    ensures { IsTrue result → (from : ℕ) → journal.is_past last (journal.delivery to from) ≡ false }
{
    match last {
        Some(last) => last.station == to && 1 < last.kind,
        None => false,
    }
}

// Whether a message from a station is on its way to the shell, and the first answers a call of the shell.
fn shell_hears(calls: &Calls, from: u8) -> bool
    requires { from ≤ 8 }
    ensures { result ≡ shell_hears from calls.now }
{
    match calls.first(from, 0) {
        Some(Message::Reply { call, .. }) => is_named(calls, *call),
        Some(Message::Request { .. }) => false,
        None => false,
    }
}

impl<St: Store + Drop> World<St>
where
    St::Device: Drop,
{
    // The number of stations: the shell, and a node at each place.
    fn stations(&self) -> u8
        requires { FitsTogether St.seen self.now }
        ensures { result ≡ station_count self.now }
    {
        self.seats.len() as u8 + 1
    }

    // The first delivery at a station past the last key.
    fn next_delivery(&self, to: u8, last: Option<Key>) -> Option<Key>
        requires whole { FitsTogether St.seen self.now }
        requires to { to ≤ 8 }
        ensures { result ≡ find (journal.is_past last) (mail_keys (station_count self.now) self.now.calls to) }
    {
        if is_behind_mail(last, to) {
            return None;
        }
        if !self.calls.may_have_mail(to) {
            return None;
        }
        for from in 0..self.stations() {
            let key = delivery(to, from);
            if self.calls.waiting(from, to) && is_past(last, key) {
                return Some(key);
            }
        }
        None
    }

    // The first key of a station past the last one.
    fn next_at(&self, number: u8, last: Option<Key>) -> Option<Key>
        requires whole { FitsTogether St.seen self.now }
        requires number { number ≤ 8 }
        ensures { (more : ℕ) (w : Model) → IsReached w
            → Stands St.Device.tells St.layout St.seen (disk_seen St.Device.counts St.Device.told St.Device.due) self.now more w
            → result ≡ find (journal.is_past last) (keys_at w number) }
    {
        if is_left(last, number) {
            return None;
        }
        match self.next_delivery(number, last) {
            Some(key) => Some(key),
            None => self.station(number)?.next(last),
        }
    }

    // The first key past the last one.
    fn next(&self, last: Option<Key>) -> Option<Key>
        requires { FitsTogether St.seen self.now }
        ensures { (more : ℕ) (w : Model) → IsReached w
            → Stands St.Device.tells St.layout St.seen (disk_seen St.Device.counts St.Device.told St.Device.due) self.now more w
            → result ≡ find (journal.is_past last) (journal.enabled w) }
    {
        for number in 0..self.stations() {
            if let Some(key) = self.next_at(number, last) {
                return Some(key);
            }
        }
        None
    }

    /// Whether it has the turn of this key.
    pub fn has_turn(&self, key: Key) -> bool
        ensures { IsTrue result ↔ HasTurn St.seen self.now key }
    {
        if key.station == 0 {
            return key.sender <= 8 && shell_hears(&self.calls, key.sender);
        }
        match self.station(key.station) {
            Some(station) => station.has_turn(&self.calls, key),
            None => false,
        }
    }

    // The key, if it has its turn.
    fn if_turn(&self, key: Key) -> Option<Key>
        ensures enabled { IfSome result (λ k. HasTurn St.seen self.now k) }
        ensures same { HasTurn St.seen self.now key → result ≡ Some key }
    {
        if self.has_turn(key) {
            return Some(key);
        }
        None
    }

    // The same, if there is a key. Each enabled key has its turn.
    fn with_turn(&self, key: Option<Key>) -> Option<Key>
        ensures enabled { IfSome result (λ k. HasTurn St.seen self.now k) }
        ensures same { (more : ℕ) (w : Model) → IsReached w
            → Stands St.Device.tells St.layout St.seen (disk_seen St.Device.counts St.Device.told St.Device.due) self.now more w
            → IfSome key (λ k. Contains (journal.enabled w) k) → result ≡ key }
    {
        match key {
            Some(key) => self.if_turn(key),
            None => None,
        }
    }

    // The least enabled key past the last one, or the least of all.
    fn next_of_all(&self, last: Option<Key>) -> Option<Key>
        requires { FitsTogether St.seen self.now }
        ensures { (more : ℕ) (w : Model) → IsReached w
            → Stands St.Device.tells St.layout St.seen (disk_seen St.Device.counts St.Device.told St.Device.due) self.now more w
            → result ≡ journal.following last (journal.enabled w) }
    {
        match self.next(last) {
            Some(key) => Some(key),
            None => self.next(None),
        }
    }

    /// The least enabled key past the last one, or the least of all.
    pub(crate) fn key_following(&self, last: Option<Key>) -> Option<Key>
        requires { FitsTogether St.seen self.now }
        ensures follows { (more : ℕ) (w : Model) → IsReached w
            → Stands St.Device.tells St.layout St.seen (disk_seen St.Device.counts St.Device.told St.Device.due) self.now more w
            → result ≡ journal.following last (journal.enabled w) }
        ensures enabled { IfSome result (λ k. HasTurn St.seen self.now k) }
    {
        self.with_turn(self.next_of_all(last))
    }

    // The delivery from one station to another, if there is one and the place is the first, or else the places left.
    fn delivery_at(&self, to: u8, from: u8, place: usize) -> ControlFlow<Key, usize>
        requires to { to ≤ 8 }
        requires from { from ≤ 8 }
        ensures { result ≡ at_place (keys_from self.now.calls to (from ∷ [])) place }
    {
        if !self.calls.waiting(from, to) {
            return ControlFlow::Continue(place);
        }
        key_or_left(delivery(to, from), place)
    }

    // Among the deliveries at a station.
    fn mail_at(&self, to: u8, place: usize) -> ControlFlow<Key, usize>
        requires whole { FitsTogether St.seen self.now }
        requires to { to ≤ 8 }
        ensures { result ≡ at_place (mail_keys (station_count self.now) self.now.calls to) place }
    {
        if !self.calls.may_have_mail(to) {
            return ControlFlow::Continue(place);
        }
        let mut left = place;
        for from in 0..self.stations() {
            left = self.delivery_at(to, from, left)?;
        }
        ControlFlow::Continue(left)
    }

    // Among the keys of a station.
    fn station_key_at(&self, number: u8, place: usize) -> ControlFlow<Key, usize>
        requires whole { FitsTogether St.seen self.now }
        requires number { number ≤ 8 }
        ensures { (more : ℕ) (w : Model) → IsReached w
            → Stands St.Device.tells St.layout St.seen (disk_seen St.Device.counts St.Device.told St.Device.due) self.now more w
            → result ≡ at_place (keys_at w number) place }
    {
        let left = self.mail_at(number, place)?;
        match self.station(number) {
            Some(station) => station.key_at(left),
            None => ControlFlow::Continue(left),
        }
    }

    // Among all enabled keys.
    fn enabled_at(&self, place: usize) -> ControlFlow<Key, usize>
        requires { FitsTogether St.seen self.now }
        ensures { (more : ℕ) (w : Model) → IsReached w
            → Stands St.Device.tells St.layout St.seen (disk_seen St.Device.counts St.Device.told St.Device.due) self.now more w
            → result ≡ at_place (journal.enabled w) place }
    {
        let mut left = place;
        for number in 0..self.stations() {
            left = self.station_key_at(number, left)?;
        }
        ControlFlow::Continue(left)
    }

    // The enabled key at this place, counted round. Where the place is past them all, what is left of it says how many there are.
    fn counted_round(&self, place: usize) -> Option<Key>
        requires { FitsTogether St.seen self.now }
        ensures { (more : ℕ) (w : Model) → IsReached w
            → Stands St.Device.tells St.layout St.seen (disk_seen St.Device.counts St.Device.told St.Device.due) self.now more w
            → result ≡ journal.item place (journal.enabled w) }
    {
        match self.enabled_at(place) {
            ControlFlow::Break(key) => Some(key),
            ControlFlow::Continue(left) => {
                let number = place.saturating_sub(left);
                self.enabled_at(left.checked_rem(number)?).break_value()
            }
        }
    }

    /// The enabled key at this place, counted round.
    pub(crate) fn key_at(&self, i: u32) -> Option<Key>
        requires { FitsTogether St.seen self.now }
        ensures chosen { (more : ℕ) (w : Model) → IsReached w
            → Stands St.Device.tells St.layout St.seen (disk_seen St.Device.counts St.Device.told St.Device.due) self.now more w
            → result ≡ journal.item i (journal.enabled w) }
        ensures enabled { IfSome result (λ k. HasTurn St.seen self.now k) }
    {
        self.with_turn(self.counted_round(i as usize))
    }
}

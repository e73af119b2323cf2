//! What a book asks of its turn and of its chains: the next turn, priorities of waiters, and numbers of the notified.
ghost use Rattle.std.specs.Prelude.{◌≡◌, ◌<◌, ◌≤◌, ◌==◌, length, not, map};
ghost use Rattle.std.specs.List.{slice_get};
ghost use Rattle.std.specs.Option.{option_map};
ghost use Rattle.hoare_law.specs.Turns.{turn_given_up};
ghost use Rattle.wait_book.specs.Contents.{times_in_hand, wait_of};
ghost use Rattle.wait_book.specs.Insides.{called_in, chain_of};
ghost use Rattle.wait_book.specs.Lists.{places_in};
ghost use Rattle.wait_book.specs.Lists.{first_link, list_at};
ghost use Rattle.wait_book.specs.Numbers.{position_from};
ghost use Rattle.wait_book.specs.declared.chains.Link.{Link};

use crate::chains::{CALLED, CHAINS, Chains, SIGNALLERS};
use hoare_law::turn::Turn;

/// Returns the turn once the monitor is released: that of the longest waiting signaller, else that of the first
/// notified process, else `Free`.
pub(crate) fn turn_given_up(chains: &Chains) -> Turn
    ensures { result ≡ turn_given_up (places_in (list_at chains.now SIGNALLERS))
        (map wait_of (called_in (list_at chains.now CALLED))) }
{
    if let Some(signaller) = chains.first(SIGNALLERS) {
        return Turn::Return(signaller.place);
    }
    match chains.first(CALLED) {
        Some(link) => Turn::Owed(link.place, link.condition),
        None => Turn::Free,
    }
}

/// Returns the priority of the first waiter on `condition`, or `None` if no process waits there.
pub(crate) fn first_priority(chains: &Chains, condition: usize) -> Option<u64>
    requires { condition < CHAINS }
    ensures { result ≡ option_map (λ (x : Link). x.priority)
        (first_link (list_at chains.now condition)) }
{
    chains.first(condition).map(|link| link.priority)
}

/// Returns the priority of the waiter number `i` on `condition`, counted from 0, or `None` if there are no more than
/// `i`.
pub(crate) fn nth_priority(chains: &Chains, condition: usize, i: usize) -> Option<u64>
    requires { condition < CHAINS }
    ensures { result ≡ option_map (λ (x : Link). x.priority)
        (slice_get (list_at chains.now condition) i) }
{
    let link = chains.on(condition).nth(i)?;
    Some(link.priority)
}

/// Returns the number of `place` among the notified, counted from 1, or 0 if it isn't among them.
pub(crate) fn notified_position(chains: &Chains, place: usize) -> usize
    requires { length (list_at chains.now CALLED) ≤ 64 }
    ensures number { result ≡ position_from 0 place (places_in (list_at chains.now CALLED)) }
    ensures few { result ≤ 64 }
{
    let mut number = 0;
    for link in chains.on(CALLED) {
        number += 1;
        if link.place == place {
            return number;
        }
    }
    0
}

/// Returns true if `place` is inside, or was resumed from one of the first `hoare` conditions, which are Hoare's.
pub(crate) fn is_in_hand(turn: Turn, hoare: usize, place: usize) -> bool
    ensures { not result ≡ (times_in_hand place hoare turn == 0) }
{
    match turn {
        Turn::Held(k) => k == place,
        Turn::Owed(k, c) => c < hoare && k == place,
        Turn::Free | Turn::Return(_) => false,
    }
}

/// Returns the chain that the place to resume is in: the signallers' if it returns from a signal, that of the notified
/// if it waited on a condition after the first `hoare`, which are Hoare's. Returns `None` if a signal resumed it, or if
/// the monitor is owed to no place.
pub(crate) fn chain_of(turn: Turn, hoare: usize) -> Option<usize>
    ensures { result ≡ chain_of turn hoare }
{
    match turn {
        Turn::Return(_) => Some(SIGNALLERS),
        Turn::Owed(_, c) => { if c < hoare { None } else { Some(CALLED) } }
        Turn::Held(_) | Turn::Free => None,
    }
}

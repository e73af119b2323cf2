//! How a door is opened, with 0 or another first ticket.
ghost use Rattle.std.specs.Prelude.{◌≡◌, ◌≤◌, ◌<◌, ◌⊎◌, [], false, IfOk, IfErr, None, Some, All};
ghost use Rattle.hoare_law.specs.Events.{opened};
ghost use Rattle.hoare_law.specs.Sizes.{kinds_of, sizes_of};
ghost use Rattle.hoare_law.specs.Priorities.{nobody};
ghost use Rattle.wait_book.specs.Contents.{IsOf, make_refusal};
ghost use Rattle.door_frame.specs.declared.view.SeatView.TheVariants.{Unopened, Places};
ghost use Rattle.door_frame.specs.Views.{all_know};
ghost use Rattle.door_frame.specs.Making.{AreParts, IsMadeOf};
ghost use Rattle.door_frame.specs.Places.{places_from};
ghost use Rattle.ticket_door.specs.Rule.{Initial};

use crate::door::{RawTicketDoor, TicketDoor};
use crate::place::TicketOut;
use crate::rule::{Sizes, TicketTable, TicketWords};
use crate::waiting_room::WaitingRoom;
use crate::words::{NEXT, SERVING, served_as, words_for};
use door_frame::guarded::GuardedBox;
use door_frame::making::{Parts, deal, parts_for, vacant};
use door_frame::running::RunningMonitor;
use door_frame::seat_steps::{Begin, DoorSeat, KindsOf, Open};
use door_frame::slot::put_guarded;
use hoare_law::data::MonitorData;
use hoare_law::monitor::Monitor;
use std::alloc::{AllocError, Global};
use wait_book::steps::MakeRefused;

/// Returns the words of a new door: NEXT is `first`, SERVING is twice that, modulo 2^64, with the gate open, and no
/// bell is rung. Fails if the allocation failed.
fn first_words(alloc: Global, places: usize, first: u64) -> Result<Vec<u64>, AllocError>
    requires { places ≤ 64 }
    ensures { IfOk result (λ w. Initial first places false w.items) }
{
    let mut words = vec![in alloc; 0; words_for(places)]?;
    words[NEXT] = first;
    words[SERVING] = served_as(first);
    Ok(words)
}

/// Opens the door: `seat`, the first, takes the empty slot, and returns it with the data. Both steps are loads of
/// SERVING.
fn open<D: MonitorData>(table: &TicketTable<D>, seat: &mut DoorSeat<D>, guarded: GuardedBox<D>)
    requires table { (seat.old.table_id ≡ table.now.shared.table_id)
        × (0 < table.now.shared.table_id.words) }
    requires seat { seat.old.me ≡ (Unopened table.now.shared.key.places, []) }
    requires rest { D.rest guarded.state nobody }
    requires book { IsOf guarded.book (opened (sizes_of D.CONDITIONS D.MESA table.now.shared.key.places) tt) }
    ensures table { seat.new.table_id ≡ seat.old.table_id }
    ensures opened { seat.new.me ≡ (
      Places (all_know 0 table.now.shared.key.places
          (opened (sizes_of D.CONDITIONS D.MESA table.now.shared.key.places) guarded.state)),
      [],
    ) }
{
    table.shared.load::<Begin>(seat, SERVING);
    put_guarded(table, seat, guarded);
    table.shared.load::<Open<KindsOf<D>>>(seat, SERVING);
}

/// Creates a raw monitor from `parts`, with `first` as its first ticket and opened with the data, and its places, in
/// order. Returns the data if an allocation failed.
pub(crate) fn open_at<D: MonitorData>(
    alloc: Global,
    parts: Parts<D>,
    first: u64,
) -> Result<(RawTicketDoor<D>, Vec<TicketOut<D>>), D>
    requires { AreParts D.rest (kinds_of D.CONDITIONS D.MESA) parts }
    ensures made { IfOk result (λ r. IsMadeOf D.rest D.ready (kinds_of D.CONDITIONS D.MESA)
        parts r.0.door r.1.items) }
    ensures first { IfOk result (λ r. r.0.first ≡ first) }
    ensures returned { IfErr result (λ s. s ≡ parts.state) }
{
    let Parts {
        places,
        state,
        book,
        sleepers,
        wakers,
        outs,
    } = parts;
    let Ok(words) = first_words(alloc, places, first) else {
        return Err(state);
    };
    let sizes = Sizes { places, first };
    let (table, mut seat, guarded) = vacant::<D, Sizes, TicketWords>(
        alloc, state, book, &words, &sizes,
    )?;
    open(&table, &mut seat, guarded);
    let outs = deal(&table, seat, sleepers, outs, places);
    let waiting_room = WaitingRoom::new();
    let raw_monitor = RawTicketDoor {
        table,
        wakers,
        waiting_room,
    };
    Ok((raw_monitor, outs))
}

/// Creates a door as `TicketDoor::make` does, but with `first` as its first ticket, and its places, in order. Refuses
/// as `make` does, and then returns `state` too.
pub fn make_at<D: MonitorData + Send>(
    alloc: Global,
    state: D,
    places: usize,
    first: u64,
) -> Result<(TicketDoor<D>, Vec<TicketOut<D>>), (D, MakeRefused)>
    requires rest { D.rest state nobody }
    ensures made { IfOk result (λ r. (make_refusal (sizes_of D.CONDITIONS D.MESA places) ≡ None)
        × (r.0.door.places ≡ places) × (r.0.first ≡ first)) }
    ensures of { IfOk result (λ r. All (⟦<TicketDoor<D> as Monitor<D>>⟧.is_of r.0) r.1.items) }
    ensures places { IfOk result (λ r. r.1.items ≡ places_from r.0.door 0 places
        (opened (sizes_of D.CONDITIONS D.MESA places) state)) }
    ensures returned { IfErr result (λ e. e.0 ≡ state) }
    ensures refused { IfErr result (λ e. (make_refusal (sizes_of D.CONDITIONS D.MESA places) ≡ Some e.1)
        ⊎ ((make_refusal (sizes_of D.CONDITIONS D.MESA places) ≡ None) × (e.1 ≡ MakeRefused.Memory))) }
{
    let parts = parts_for(alloc, state, places)?;
    match open_at(alloc, parts, first) {
        Ok((raw_monitor, outs)) => Ok((RunningMonitor::new(raw_monitor), outs)),
        Err(state) => Err((state, MakeRefused::Memory)),
    }
}

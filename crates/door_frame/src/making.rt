//! How a door is made, and taken apart.
ghost use Rattle.std.specs.Prelude.{◌≡◌, ◌<◌, ◌≤◌, ℕ, List, [], false, reverse, length, vec_len, vec_capacity, IfOk};
ghost use Rattle.std.specs.Prelude.{◌⊎◌, IfErr, None, Some, All};
ghost use Rattle.hoare_law.specs.declared.event.History.{History};
ghost use Rattle.hoare_law.specs.Priorities.{nobody};
ghost use Rattle.hoare_law.specs.Sizes.{kinds_of, sizes_of};
ghost use Rattle.wait_book.specs.Contents.{make_refusal};
ghost use Rattle.door_frame.specs.Making.{AreParts};
ghost use Rattle.door_frame.specs.declared.view.SeatView.TheVariants.{Unopened, Places};
ghost use Rattle.door_frame.specs.Views.{all_know};
ghost use Rattle.door_frame.specs.Places.{door_of, places_from, HasPlace, IsOut, Closes};

use crate::guarded::GuardedBox;
use crate::place::Outside;
use crate::rule::{DoorTable, Words};
use crate::seat_steps::{DoorSeat, MergePlaces, SplitFirst};
use crate::waking::{ByCaller, Parking, Sleeper, Waker};
use atomic_table::Table;
use hoare_law::data::MonitorData;
use std::alloc::{AllocError, Global};
use std::marker::Brand;
use wait_book::book::Book;
use wait_book::steps::MakeRefused;

/// What a door that wakes its places is made of, apart from its table.
pub struct Parts<D> {
    /// How many places the door has.
    pub places: usize,
    /// The data.
    pub state: D,
    /// The queues.
    pub book: Book,
    /// What each place parks on, the last place's first.
    pub sleepers: Vec<Sleeper>,
    /// What wakes each place, the first place's first.
    pub wakers: Vec<Waker>,
    /// Room for the places.
    pub outs: Vec<Outside<D>>,
}

/// Creates what each of `places` places parks on, the last place's first, and what wakes each, the first place's first.
pub fn sleepers(alloc: Global, places: usize) -> Result<(Vec<Sleeper>, Vec<Waker>), AllocError>
    ensures sizes { IfOk result (λ r. (vec_len r.0 ≡ places) × (vec_len r.1 ≡ places)) }
    ensures each_wakes { IfOk result (λ r. r.1.items ≡ reverse r.0.items) }
{
    let mut sleepers = Vec::with_capacity(alloc, places)?;
    let mut wakers = Vec::with_capacity(alloc, places)?;
    for made in 0..places {
        let (sleeper, waker) = Sleeper::new(alloc)?;
        wakers.push(waker)?;
        sleepers.push(sleeper)?;
    }
    sleepers.reverse();
    Ok((sleepers, wakers))
}

/// Allocates what a door that wakes its places is made of, apart from its table. Refuses, in this order, with
/// `BadPlaces`, `BadConditions`, and `Memory` if an allocation failed. Each refusal returns the data.
pub fn parts_for<D: MonitorData>(
    alloc: Global,
    state: D,
    places: usize,
) -> Result<Parts<D>, (D, MakeRefused)>
    requires rest { D.rest state nobody }
    ensures made { IfOk result (λ p. AreParts D.rest (kinds_of D.CONDITIONS D.MESA) p) }
    ensures of { IfOk result (λ p. (p.places ≡ places) × (p.state ≡ state)) }
    ensures returned { IfErr result (λ e. e.0 ≡ state) }
    ensures refused { IfErr result (λ e. (make_refusal (sizes_of D.CONDITIONS D.MESA places) ≡ Some e.1)
        ⊎ ((make_refusal (sizes_of D.CONDITIONS D.MESA places) ≡ None) × (e.1 ≡ MakeRefused.Memory))) }
{
    let book = match Book::make(alloc, places, D::CONDITIONS, D::MESA) {
        Ok(book) => book,
        Err(refused) => return Err((state, refused)),
    };
    let Ok((sleepers, wakers)) = sleepers(alloc, places) else {
        return Err((state, MakeRefused::Memory));
    };
    let Ok(outs) = Vec::with_capacity(alloc, places) else {
        return Err((state, MakeRefused::Memory));
    };
    Ok(Parts {
        places,
        state,
        book,
        sleepers,
        wakers,
        outs,
    })
}

/// Creates a table whose slot is empty, its first seat, and the guarded box that is to go into the slot. Returns the
/// data if an allocation failed. That is why the slot is empty at first: the door's own two opening steps take the
/// slot, and put it back with the guarded box.
pub fn vacant<D: MonitorData, K, W: Words<D, K>>(
    alloc: Global,
    state: D,
    book: Book,
    words: &[u64],
    key: &K,
) -> Result<(DoorTable<D, K, W>, DoorSeat<D>, GuardedBox<D>), D>
    requires { W.initial key.now false words.now }
    ensures table { IfOk result (λ r. (r.0.shared.table_id.words ≡ length words.now)
        × (r.0.shared.table_id.slots ≡ 1) × (r.0.shared.key ≡ key.now)) }
    ensures seat { IfOk result (λ r. (r.1.table_id ≡ r.0.shared.table_id)
        × (r.1.me ≡ (Unopened (W.places key.now), []))) }
    ensures guarded { IfOk result (λ r. (r.2.state ≡ state) × (r.2.book ≡ book)) }
    ensures returned { IfErr result (λ s. s ≡ state) }
{
    let guarded = GuardedBox::new(alloc, state, book)?;
    match Table::vacant(alloc, words, 1, key) {
        Ok((table, seat)) => Ok((table, seat, guarded)),
        Err(_) => Err(guarded.into_data()),
    }
}

/// Creates the places of a door that wakes them, each with what it parks on, from a seat that represents all of them.
pub fn deal<D: MonitorData, K, W: Words<D, K>>(
    table: &DoorTable<D, K, W>,
    mut seat: DoorSeat<D>,
    mut sleepers: Vec<Sleeper>,
    mut outs: Vec<Outside<D>>,
    places: usize,
) -> Vec<Outside<D>>
    requires table { (seat.table_id ≡ table.now.shared.table_id)
        × (0 < table.now.shared.table_id.words) }
    requires room { (vec_len outs ≡ 0) × (places ≤ vec_capacity outs) × (vec_len sleepers ≡ places) }
    requires seat { (f : History D) × (seat.me ≡ (Places (all_know 0 places f), [])) }
    ensures { (f : History D) → seat.me ≡ (Places (all_know 0 places f), [])
        → result.items ≡ places_from (door_of table.now.shared.table_id places (reverse sleepers.items)) 0 places f }
{
    for place in 0..places {
        let cut = table.shared.split_seat::<SplitFirst>(&mut seat);
        let sleeper = sleepers.pop().unwrap();
        outs.push_reserved(Outside::of_parts(cut, place, sleeper));
    }
    outs
}

/// Creates the places of a door that wakes none of them, from a seat that represents all of them.
pub fn deal_by_caller<D: MonitorData, K, W: Words<D, K>>(
    table: &DoorTable<D, K, W>,
    mut seat: DoorSeat<D>,
    mut outs: Vec<Outside<D, ByCaller>>,
    places: usize,
) -> Vec<Outside<D, ByCaller>>
    requires table { (seat.table_id ≡ table.now.shared.table_id)
        × (0 < table.now.shared.table_id.words) }
    requires room { (vec_len outs ≡ 0) × (places ≤ vec_capacity outs) }
    requires seat { (f : History D) × (seat.me ≡ (Places (all_know 0 places f), [])) }
    ensures { (f : History D) → seat.me ≡ (Places (all_know 0 places f), [])
        → result.items ≡ places_from (door_of table.now.shared.table_id places []) 0 places f }
{
    for place in 0..places {
        let cut = table.shared.split_seat::<SplitFirst>(&mut seat);
        outs.push_reserved(Outside::of_parts(cut, place, ByCaller));
    }
    outs
}

/// What the places of a door park on, the first place's first. Each call of `closed_as` picks it.
pub trait PickedSleepers {
    ghost use Rattle.std.specs.Prelude.{List};
    ghost use Rattle.atomic_table.specs.Seated.{TableId};

    /// Identifies what each place parks on.
    ghost sleepers: { List TableId };
}

impl PickedSleepers for Brand {
    ghost use Rattle.std.specs.Prelude.{[]};

    ghost sleepers = { [] };
}

/// Takes a door's table apart. All places are handed in, in any order. Returns the data that one legal and lawful
/// history left, at rest with nobody waiting. `_wakers` only serves to pick `J`.
pub fn closed_as<D: MonitorData, K, W: Words<D, K>, S: Parking + Drop, V: Drop, J: PickedSleepers>(
    table: DoorTable<D, K, W>,
    _wakers: V,
    mut outs: Vec<Outside<D, S>>,
) -> D
    requires table { (0 < table.shared.table_id.words) × (table.shared.table_id.slots ≡ 1)
        × (0 < W.places table.shared.key) }
    requires of { All (IsOut D.rest D.ready (W.kinds table.shared.key)
        (door_of table.shared.table_id (W.places table.shared.key) J.sleepers)) outs.items }
    requires places { (k : ℕ) → k < W.places table.shared.key → HasPlace k outs.items }
    ensures closes { Closes D.rest D.ready (W.kinds table.shared.key)
        (door_of table.shared.table_id (W.places table.shared.key) J.sleepers) outs.items result }
    ensures rest { D.rest result nobody }
{
    let Some(first) = outs.pop() else {
        unreachable!()
    };
    let (mut seat, _, _) = first.into_parts();
    while let Some(out) = outs.pop() {
        let (other, _, _) = out.into_parts();
        table.shared.join_seat::<MergePlaces>(&mut seat, other);
    }
    let mut closed = table.close_with(seat);
    let guarded = closed.take(0).unwrap();
    closed.free();
    guarded.into_data()
}

/// Takes apart the table of a door that wakes its places. All places are handed in, in any order. Returns the data that
/// one legal and lawful history left, at rest with nobody waiting.
pub fn closed<D: MonitorData, K, W: Words<D, K>>(
    table: DoorTable<D, K, W>,
    wakers: Vec<Waker>,
    outs: Vec<Outside<D>>,
) -> D
    requires table { (0 < table.shared.table_id.words) × (table.shared.table_id.slots ≡ 1)
        × (0 < W.places table.shared.key) }
    requires of { All (IsOut D.rest D.ready (W.kinds table.shared.key)
        (door_of table.shared.table_id (W.places table.shared.key) wakers.items)) outs.items }
    requires places { (k : ℕ) → k < W.places table.shared.key → HasPlace k outs.items }
    ensures closes { Closes D.rest D.ready (W.kinds table.shared.key)
        (door_of table.shared.table_id (W.places table.shared.key) wakers.items) outs.items result }
    ensures rest { D.rest result nobody }
{
    closed_as::<D, K, W, Sleeper, Vec<Waker>, Brand>(table, wakers, outs)
}

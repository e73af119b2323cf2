//! The queue book for C: each function that C calls. `bindings/c/zaulinte_book.h` declares them.
//!
//! `book` is a word and two pointers of C's, all 0 at first; a `Global` is nothing to C. No function has a premise: each
//! returns for every number, and if there is no book. What C holds is the book of some legal history, so a returned place
//! is one of the book's, below 64.
#![tactic(auto)]

ghost use Rattle.std.specs.Prelude.{◌≡◌, ◌≢◌, ◌≤◌, ◌⊎◌, Some, None};
ghost use Rattle.hoare_law.specs.declared.event.History.{History};
ghost use Rattle.hoare_law.specs.Events.{opened};
ghost use Rattle.hoare_law.specs.Sizes.{sizes_of};
ghost use Rattle.wait_book.specs.declared.steps.MakeRefused.{MakeRefused};
ghost use Rattle.wait_book.specs.declared.steps.Step.TheVariants as steps;
ghost use Rattle.wait_book.specs.Contents.{make_refusal};
ghost use Rattle.book_c.specs.Held.{Holds, HoldsSome};
ghost use Rattle.book_c.specs.Codes.{LacksBook, RefusalKeeps, Steps, Tells, make_code, outside_code, queue_code};
ghost use Rattle.book_c.specs.Codes.{IsAnswer, IsStepCode, SignalsTo, first_or, condition_code, count_or};

mod codes;
pub mod handle;
pub mod legal_book;
pub mod place;

use codes::{IS_MADE, NO_BOOK, NO_MEMORY};
use legal_book::LegalBook;
use place::Held;
use std::alloc::Global;
use wait_book::book::Book;
use wait_book::steps::Step;

/// Makes a book of 1 to 64 places and 1 to 8 conditions, the last `mesa` of which are Mesa conditions, and returns 0.
/// Refused, in this order: 108 there is a book already, 109 bad places, 110 bad conditions, 111 no memory. A refusal
/// changes nothing.
#[unsafe(no_mangle)]
pub extern "C" fn zaulinte_book_make(
    alloc: Global,
    book: &mut Held,
    places: u64,
    conditions: u64,
    mesa: u64,
) -> u64
    ensures there { book.old.live ≡ 1 → (result ≡ 108) × (book.new ≡ book.old) }
    ensures bad { book.old.live ≡ 0 → (e : MakeRefused)
        → make_refusal (sizes_of conditions mesa places) ≡ Some e
        → (result ≡ make_code e) × (book.new ≡ book.old) }
    ensures made { book.old.live ≡ 0 → make_refusal (sizes_of conditions mesa places) ≡ None
        → ((result ≡ 0)
        × Holds book.new.live book.new.handle.value (opened (sizes_of conditions mesa places) tt))
        ⊎ ((result ≡ 111) × (book.new ≡ book.old)) }
{
    if book.live != 0 {
        return IS_MADE;
    }
    let made = match Book::make(alloc, places as usize, conditions as usize, mesa as usize) {
        Ok(made) => made,
        Err(refused) => return codes::make_code(refused),
    };
    match book.held().keep(alloc, LegalBook::new(made)) {
        Ok(()) => 0,
        Err(_) => NO_MEMORY,
    }
}

/// Frees the book, and returns 0. Refused: 107 no book.
#[unsafe(no_mangle)]
pub extern "C" fn zaulinte_book_free(alloc: Global, book: &mut Held) -> u64
    ensures freed { book.new.live ≡ 0 }
    ensures answer { book.old.live ≡ 1 → result ≡ 0 }
    ensures none { LacksBook book.old.live book.old book.new result }
{
    let Some(taken) = book.held().take(alloc) else {
        return NO_BOOK;
    };
    drop(taken);
    0
}

/// Lets `place` enter. Returns the place that is inside then, or 64 if none is. Refused, in this order: 107 no book,
/// 101 no such place, 102 not free, 103 not outside. A refusal changes nothing.
#[unsafe(no_mangle)]
pub extern "C" fn zaulinte_book_enter(_alloc: Global, book: &mut Held, place: u64) -> u64
    ensures of { Steps book.old.live book.old.handle.value (steps.Enter place) book.new.live
        book.new.handle.value result }
    ensures refused { RefusalKeeps book.old.handle.value book.new.handle.value result }
    ensures none { LacksBook book.old.live book.old book.new result }
    ensures legal { HoldsSome book.old.live book.old.handle.value × HoldsSome book.new.live book.new.handle.value }
    ensures bounds { IsStepCode book.new.handle.value.sizes.places result }
{
    book.step(Step::Enter(place))
}

/// Lets `place` leave. Returns the place that is inside then, or 64 if none is. Refused, in this order: 107 no book,
/// 101 no such place, 104 not inside. A refusal changes nothing.
#[unsafe(no_mangle)]
pub extern "C" fn zaulinte_book_leave(_alloc: Global, book: &mut Held, place: u64) -> u64
    ensures of { Steps book.old.live book.old.handle.value (steps.Leave place) book.new.live
        book.new.handle.value result }
    ensures refused { RefusalKeeps book.old.handle.value book.new.handle.value result }
    ensures none { LacksBook book.old.live book.old book.new result }
    ensures legal { HoldsSome book.old.live book.old.handle.value × HoldsSome book.new.live book.new.handle.value }
    ensures bounds { IsStepCode book.new.handle.value.sizes.places result }
{
    book.step(Step::Leave(place))
}

/// Lets `place` wait on `condition` with `priority`. Returns the place that is inside then, or 64 if none is. Refused,
/// in this order: 107 no book, 101 no such place, 104 not inside, 105 no such condition. A refusal changes nothing.
#[unsafe(no_mangle)]
pub extern "C" fn zaulinte_book_wait(
    _alloc: Global,
    book: &mut Held,
    place: u64,
    condition: u64,
    priority: u64,
) -> u64
    ensures of { Steps book.old.live book.old.handle.value (steps.Wait place condition priority) book.new.live
        book.new.handle.value result }
    ensures refused { RefusalKeeps book.old.handle.value book.new.handle.value result }
    ensures none { LacksBook book.old.live book.old book.new result }
    ensures legal { HoldsSome book.old.live book.old.handle.value × HoldsSome book.new.live book.new.handle.value }
    ensures bounds { IsStepCode book.new.handle.value.sizes.places result }
{
    book.step(Step::Wait(place, condition, priority))
}

/// Lets `place` signal `condition`, one of Hoare's. Returns the place that is inside then, or 64 if none is. Refused,
/// in this order: 107 no book, 101 no such place, 104 not inside, 105 no such condition, 106 a Mesa condition. A
/// refusal changes nothing.
#[unsafe(no_mangle)]
pub extern "C" fn zaulinte_book_signal(
    _alloc: Global,
    book: &mut Held,
    place: u64,
    condition: u64,
) -> u64
    ensures of { Steps book.old.live book.old.handle.value (steps.Signal place condition) book.new.live
        book.new.handle.value result }
    ensures refused { RefusalKeeps book.old.handle.value book.new.handle.value result }
    ensures none { LacksBook book.old.live book.old book.new result }
    ensures legal { HoldsSome book.old.live book.old.handle.value × HoldsSome book.new.live book.new.handle.value }
    ensures bounds { IsStepCode book.new.handle.value.sizes.places result }
{
    book.step(Step::Signal(place, condition))
}

/// Lets `place` signal to the place `waiter` on `condition`, one of Hoare's. If that place waits there, whoever else
/// waits, it is inside then; else nothing changes. Returns the place that is inside. Refused, in this order: 107 no
/// book, 101 no such place, 104 not inside, 105 no such condition, 106 a Mesa condition. A refusal changes nothing.
#[unsafe(no_mangle)]
pub extern "C" fn zaulinte_book_signal_to(
    _alloc: Global,
    book: &mut Held,
    place: u64,
    condition: u64,
    waiter: u64,
) -> u64
    ensures of { SignalsTo book.old.live book.old.handle.value place condition waiter book.new.live
        book.new.handle.value result }
    ensures refused { RefusalKeeps book.old.handle.value book.new.handle.value result }
    ensures none { LacksBook book.old.live book.old book.new result }
    ensures legal { HoldsSome book.old.live book.old.handle.value × HoldsSome book.new.live book.new.handle.value }
    ensures bounds { IsStepCode book.new.handle.value.sizes.places result }
{
    let Some(book) = book.held().get_mut() else {
        return NO_BOOK;
    };
    book.signal_to(place, condition, waiter)
}

/// Lets `place` signal `condition`, one of Hoare's, as its last act. Returns the place that is inside then, or 64 if
/// none is. Refused, in this order: 107 no book, 101 no such place, 104 not inside, 105 no such condition, 106 a Mesa
/// condition. A refusal changes nothing.
#[unsafe(no_mangle)]
pub extern "C" fn zaulinte_book_pass(
    _alloc: Global,
    book: &mut Held,
    place: u64,
    condition: u64,
) -> u64
    ensures of { Steps book.old.live book.old.handle.value (steps.Pass place condition) book.new.live
        book.new.handle.value result }
    ensures refused { RefusalKeeps book.old.handle.value book.new.handle.value result }
    ensures none { LacksBook book.old.live book.old book.new result }
    ensures legal { HoldsSome book.old.live book.old.handle.value × HoldsSome book.new.live book.new.handle.value }
    ensures bounds { IsStepCode book.new.handle.value.sizes.places result }
{
    book.step(Step::Pass(place, condition))
}

/// Lets `place` notify the waiter on the Mesa condition `condition` that a signal would resume. Returns the place that
/// is inside then, or 64 if none is. Refused, in this order: 107 no book, 101 no such place, 104 not inside, 105 no
/// such condition, 106 one of Hoare's conditions. A refusal changes nothing.
#[unsafe(no_mangle)]
pub extern "C" fn zaulinte_book_notify(
    _alloc: Global,
    book: &mut Held,
    place: u64,
    condition: u64,
) -> u64
    ensures of { Steps book.old.live book.old.handle.value (steps.Notify place condition) book.new.live
        book.new.handle.value result }
    ensures refused { RefusalKeeps book.old.handle.value book.new.handle.value result }
    ensures none { LacksBook book.old.live book.old book.new result }
    ensures legal { HoldsSome book.old.live book.old.handle.value × HoldsSome book.new.live book.new.handle.value }
    ensures bounds { IsStepCode book.new.handle.value.sizes.places result }
{
    book.step(Step::Notify(place, condition))
}

/// Lets `place` notify all waiters on the Mesa condition `condition`. Returns the place that is inside then, or 64 if
/// none is. Refused, in this order: 107 no book, 101 no such place, 104 not inside, 105 no such condition, 106 one of
/// Hoare's conditions. A refusal changes nothing.
#[unsafe(no_mangle)]
pub extern "C" fn zaulinte_book_broadcast(
    _alloc: Global,
    book: &mut Held,
    place: u64,
    condition: u64,
) -> u64
    ensures of { Steps book.old.live book.old.handle.value (steps.Broadcast place condition) book.new.live
        book.new.handle.value result }
    ensures refused { RefusalKeeps book.old.handle.value book.new.handle.value result }
    ensures none { LacksBook book.old.live book.old book.new result }
    ensures legal { HoldsSome book.old.live book.old.handle.value × HoldsSome book.new.live book.new.handle.value }
    ensures bounds { IsStepCode book.new.handle.value.sizes.places result }
{
    book.step(Step::Broadcast(place, condition))
}

/// Returns the place that is inside, or 64 if none is. Refused: 107 no book.
#[unsafe(no_mangle)]
pub extern "C" fn zaulinte_book_now(_alloc: Global, book: &mut Held) -> u64
    ensures of { (h : History (Unit {0})) → Holds book.old.live book.old.handle.value h
        → Holds book.new.live book.new.handle.value h
        × Tells h result }
    ensures none { LacksBook book.old.live book.old book.new result }
    ensures legal { HoldsSome book.old.live book.old.handle.value × HoldsSome book.new.live book.new.handle.value }
    ensures bounds { IsStepCode book.new.handle.value.sizes.places result }
{
    let Some(book) = book.held().get_mut() else {
        return NO_BOOK;
    };
    codes::inside(book.book())
}

/// Returns the number of places, at most 64. Refused: 107 no book.
#[unsafe(no_mangle)]
pub extern "C" fn zaulinte_book_places(_alloc: Global, book: &mut Held) -> u64
    ensures of { (h : History (Unit {0})) → Holds book.old.live book.old.handle.value h
        → Holds book.new.live book.new.handle.value h
        × (result ≡ h.sizes.places) × (result ≤ 64) }
    ensures none { LacksBook book.old.live book.old book.new result }
    ensures legal { HoldsSome book.old.live book.old.handle.value × HoldsSome book.new.live book.new.handle.value }
    ensures bounds { IsAnswer 1 64 107 result }
{
    let Some(book) = book.held().get_mut() else {
        return NO_BOOK;
    };
    book.book().places() as u64
}

/// Returns the number of conditions, at most 8, Mesa conditions included. Refused: 107 no book.
#[unsafe(no_mangle)]
pub extern "C" fn zaulinte_book_conditions(_alloc: Global, book: &mut Held) -> u64
    ensures of { (h : History (Unit {0})) → Holds book.old.live book.old.handle.value h
        → Holds book.new.live book.new.handle.value h
        × (result ≡ h.sizes.conditions) × (result ≤ 8) }
    ensures none { LacksBook book.old.live book.old book.new result }
    ensures legal { HoldsSome book.old.live book.old.handle.value × HoldsSome book.new.live book.new.handle.value }
    ensures bounds { IsAnswer 1 8 107 result }
{
    let Some(book) = book.held().get_mut() else {
        return NO_BOOK;
    };
    book.book().conditions() as u64
}

/// Returns 1 if `place` is outside, else 0. Refused, in this order: 107 no book, 101 no such place.
#[unsafe(no_mangle)]
pub extern "C" fn zaulinte_book_outside(_alloc: Global, book: &mut Held, place: u64) -> u64
    ensures of { (h : History (Unit {0})) → Holds book.old.live book.old.handle.value h
        → Holds book.new.live book.new.handle.value h
        × (result ≡ outside_code h place) }
    ensures none { LacksBook book.old.live book.old book.new result }
    ensures legal { HoldsSome book.old.live book.old.handle.value × HoldsSome book.new.live book.new.handle.value }
    ensures bounds { IsAnswer 0 1 101 result }
{
    let Some(book) = book.held().get_mut() else {
        return NO_BOOK;
    };
    codes::outside(book.book(), place)
}

/// Returns 1 if a place waits on `condition`, else 0. Refused, in this order: 107 no book, 105 no such condition.
#[unsafe(no_mangle)]
pub extern "C" fn zaulinte_book_queue(_alloc: Global, book: &mut Held, condition: u64) -> u64
    ensures of { (h : History (Unit {0})) → Holds book.old.live book.old.handle.value h
        → Holds book.new.live book.new.handle.value h
        × (result ≡ queue_code h condition) }
    ensures none { LacksBook book.old.live book.old book.new result }
    ensures legal { HoldsSome book.old.live book.old.handle.value × HoldsSome book.new.live book.new.handle.value }
    ensures bounds { IsAnswer 0 1 105 result }
{
    let Some(book) = book.held().get_mut() else {
        return NO_BOOK;
    };
    codes::queue(book.book(), condition)
}

/// Returns 1 if a place waits on `condition`, and writes the priority of the place that a signal would resume to
/// `priority`. Else returns 0. Refused, in this order: 107 no book, 105 no such condition. If it doesn't return 1,
/// `priority` stays as it is.
#[unsafe(no_mangle)]
pub extern "C" fn zaulinte_book_first(
    _alloc: Global,
    book: &mut Held,
    condition: u64,
    priority: &mut u64,
) -> u64
    ensures of { (h : History (Unit {0})) → Holds book.old.live book.old.handle.value h
        → Holds book.new.live book.new.handle.value h
        × (result ≡ queue_code h condition)
        × (priority.new ≡ first_or h condition priority.old) }
    ensures none { book.old.live ≡ 0
        → (result ≡ 107) × (book.new ≡ book.old) × (priority.new ≡ priority.old) }
    ensures legal { HoldsSome book.old.live book.old.handle.value × HoldsSome book.new.live book.new.handle.value }
    ensures bounds { IsAnswer 0 1 105 result }
    ensures kept { result ≢ 1 → priority.new ≡ priority.old }
{
    let Some(book) = book.held().get_mut() else {
        return NO_BOOK;
    };
    codes::first(book.book(), condition, priority)
}

/// Writes the number of places that wait on `condition` to `count`, and returns 0. Refused, in this order: 107 no book,
/// 105 no such condition; then `count` stays as it is.
#[unsafe(no_mangle)]
pub extern "C" fn zaulinte_book_count(
    _alloc: Global,
    book: &mut Held,
    condition: u64,
    count: &mut u64,
) -> u64
    ensures of { (h : History (Unit {0})) → Holds book.old.live book.old.handle.value h
        → Holds book.new.live book.new.handle.value h
        × (result ≡ condition_code h condition)
        × (count.new ≡ count_or h condition count.old) }
    ensures none { book.old.live ≡ 0
        → (result ≡ 107) × (book.new ≡ book.old) × (count.new ≡ count.old) }
    ensures legal { HoldsSome book.old.live book.old.handle.value × HoldsSome book.new.live book.new.handle.value }
    ensures bounds { IsAnswer 0 0 105 result }
    ensures kept { result ≢ 0 → count.new ≡ count.old }
{
    let Some(book) = book.held().get_mut() else {
        return NO_BOOK;
    };
    codes::count(book.book(), condition, count)
}

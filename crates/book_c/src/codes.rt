//! The results and refusals of a book's calls, as codes for C.
ghost use Rattle.std.specs.Prelude.{◌≡◌, ◌≢◌, ◌<◌, ◌≤◌};
ghost use Rattle.hoare_law.specs.declared.event.History.{History};
ghost use Rattle.wait_book.specs.Contents.{IsOf};
ghost use Rattle.book_c.specs.Codes.{IsAnswer, IsStepCode, SignalledTo, Stepped, Tells, make_code, outside_code, queue_code};
ghost use Rattle.book_c.specs.Codes.{first_or, condition_code, count_or, refusal_code};

use hoare_law::waits::Waits;
use wait_book::book::Book;
use wait_book::steps::{MakeRefused, Next, Step, StepRefused};

/// The code if no place is inside.
pub const FREE: u64 = 64;

/// The code if no place has this number.
pub const NO_PLACE: u64 = 101;

/// The code if no condition has this number.
pub const NO_CONDITION: u64 = 105;

/// The code if C holds no book.
pub const NO_BOOK: u64 = 107;

/// The code if C holds a book already.
pub const IS_MADE: u64 = 108;

/// The code if an allocation failed.
pub const NO_MEMORY: u64 = 111;

/// Returns the code of a refusal of a step: 101 to 106.
pub fn refusal_code(refused: StepRefused) -> u64
    ensures is { result ≡ refusal_code refused }
    ensures bounds { (101 ≤ result) × (result ≤ 106) }
{
    match refused {
        StepRefused::NoPlace => NO_PLACE,
        StepRefused::NotFree => 102,
        StepRefused::NotOutside => 103,
        StepRefused::NotInside => 104,
        StepRefused::NoCondition => NO_CONDITION,
        StepRefused::WrongKind => 106,
    }
}

/// Returns the code of the reason why no book was made: 109 to 111.
pub fn make_code(refused: MakeRefused) -> u64
    ensures { result ≡ make_code refused }
{
    match refused {
        MakeRefused::BadPlaces => 109,
        MakeRefused::BadConditions => 110,
        MakeRefused::Memory => NO_MEMORY,
    }
}

/// Returns the number of the place that is inside, below 64, or `FREE`. A place that is handed the monitor is inside at
/// once.
pub fn inside(book: &Book) -> u64
    ensures of { (h : History (Unit {0})) → IsOf book.now h → Tells h result }
    ensures few { result ≤ 64 }
    ensures place { result < 64 → result < book.now.sizes.places }
{
    let _ = book.places(); // at most 64: a place below it is less than 64
    match book.now() {
        Next::Free => FREE,
        Next::For(place) => place as u64,
        Next::Held(place) => place as u64,
    }
}

/// Does `step`, and returns the number of the place that is inside then, below 64, or `FREE`. Refused as
/// `Book::try_step`, with the code of the refusal; a refusal changes nothing.
pub fn stepped(book: &mut Book, step: Step) -> u64
    ensures of { (h : History (Unit {0})) → IsOf book.old h → Stepped h step book.new result }
    ensures refused { 64 < result → book.new ≡ book.old }
    ensures bounds { IsStepCode book.new.sizes.places result }
{
    match book.try_step(step) {
        Ok(_) => inside(book),
        Err(refused) => refusal_code(refused),
    }
}

/// Lets `place` signal to the place `waiter` on `condition`, and returns the number of the place that is inside then,
/// below 64. Refused as `Book::try_signal_to`, with the code of the refusal; a refusal changes nothing.
pub fn signalled_to(book: &mut Book, place: u64, condition: u64, waiter: u64) -> u64
    ensures of { (h : History (Unit {0})) → IsOf book.old h → SignalledTo h place condition waiter book.new result }
    ensures refused { 64 < result → book.new ≡ book.old }
    ensures bounds { IsStepCode book.new.sizes.places result }
{
    match book.try_signal_to(place, condition, waiter) {
        Ok(_) => inside(book),
        Err(refused) => refusal_code(refused),
    }
}

/// Returns 1 if `place` is outside, else 0. Refused: `NO_PLACE`.
pub fn outside(book: &Book, place: u64) -> u64
    ensures of { (h : History (Unit {0})) → IsOf book.now h → result ≡ outside_code h place }
    ensures bounds { IsAnswer 0 1 101 result }
{
    if place >= book.places() as u64 {
        return NO_PLACE;
    }
    if book.outside(place as usize) { 1 } else { 0 }
}

/// Returns 1 if a place waits on `condition`, else 0. Refused: `NO_CONDITION`.
pub fn queue(book: &Book, condition: u64) -> u64
    ensures of { (h : History (Unit {0})) → IsOf book.now h → result ≡ queue_code h condition }
    ensures bounds { IsAnswer 0 1 105 result }
{
    if condition >= book.conditions() as u64 {
        return NO_CONDITION;
    }
    match book.first(condition as usize) {
        Some(_) => 1,
        None => 0,
    }
}

/// Returns 1 if a place waits on `condition`, and writes the priority of the place that a signal would resume to
/// `priority`. Else returns 0. Refused: `NO_CONDITION`. If it doesn't return 1, `priority` stays as it is.
pub fn first(book: &Book, condition: u64, priority: &mut u64) -> u64
    ensures answer { (h : History (Unit {0})) → IsOf book.now h → result ≡ queue_code h condition }
    ensures priority { (h : History (Unit {0})) → IsOf book.now h
        → priority.new ≡ first_or h condition priority.old }
    ensures bounds { IsAnswer 0 1 105 result }
    ensures kept { result ≢ 1 → priority.new ≡ priority.old }
{
    if condition >= book.conditions() as u64 {
        return NO_CONDITION;
    }
    match book.first(condition as usize) {
        Some(first) => {
            *priority = first;
            1
        }
        None => 0,
    }
}

/// Writes the number of places that wait on `condition` to `count`, and returns 0. Refused: `NO_CONDITION`; then
/// `count` stays as it is.
pub fn count(book: &Book, condition: u64, count: &mut u64) -> u64
    ensures answer { (h : History (Unit {0})) → IsOf book.now h
        → result ≡ condition_code h condition }
    ensures count { (h : History (Unit {0})) → IsOf book.now h
        → count.new ≡ count_or h condition count.old }
    ensures bounds { IsAnswer 0 0 105 result }
    ensures kept { result ≢ 0 → count.new ≡ count.old }
{
    if condition >= book.conditions() as u64 {
        return NO_CONDITION;
    }
    *count = book.count(condition as usize) as u64;
    0
}

//! A book of some history.
ghost use Rattle.std.specs.Prelude.{◌≡◌};
ghost use Rattle.hoare_law.specs.declared.event.History.{History};
ghost use Rattle.wait_book.specs.Contents.{IsOf};
ghost use Rattle.book_c.specs.Codes.{IsStepCode, RefusalKeeps, SignalledTo, Stepped};
ghost use Rattle.book_c.specs.Held.{IsOfSome};

use crate::codes;
use std::marker::Model;
use wait_book::book::Book;
use wait_book::steps::Step;

/// A book of some history, which is legal: it was made, and only steps were done on it. This is its invariant, so a
/// caller without a history has what the other clauses say of one.
#[derive(Drop)]
pub struct LegalBook {
    book: Book,
}

impl Model for LegalBook {
    ghost use Rattle.wait_book.specs.Contents.{Contents};
    ghost use Rattle.book_c.specs.Held.{IsOfSome};

    ghost Value = { Contents };

    ghost view = { λ b. b.book };

    ghost invariant = { λ b. IsOfSome b.book };
}

impl LegalBook {
    /// Takes a book of some history.
    pub fn new(book: Book) -> LegalBook
        requires { IsOfSome book }
        ensures { result ≡ book }
    {
        LegalBook { book }
    }

    /// Returns the book.
    #[inline(always)]
    pub fn book(&self) -> &Book
        ensures same { result.now ≡ self.now }
        ensures legal { IsOfSome self.now }
    {
        &self.book
    }

    /// Does `step`, as `codes::stepped`.
    #[inline(always)]
    pub fn step(&mut self, step: Step) -> u64
        ensures of { (h : History (Unit {0})) → IsOf self.old h → Stepped h step self.new result }
        ensures refused { RefusalKeeps self.old self.new result }
        ensures legal { IsOfSome self.old × IsOfSome self.new }
        ensures bounds { IsStepCode self.new.sizes.places result }
    {
        codes::stepped(&mut self.book, step)
    }

    /// Signals to a place, as `codes::signalled_to`.
    #[inline(always)]
    pub fn signal_to(&mut self, place: u64, condition: u64, waiter: u64) -> u64
        ensures of { (h : History (Unit {0})) → IsOf self.old h
            → SignalledTo h place condition waiter self.new result }
        ensures refused { RefusalKeeps self.old self.new result }
        ensures legal { IsOfSome self.old × IsOfSome self.new }
        ensures bounds { IsStepCode self.new.sizes.places result }
    {
        codes::signalled_to(&mut self.book, place, condition, waiter)
    }
}

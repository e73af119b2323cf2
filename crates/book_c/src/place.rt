//! The words in which C keeps a book, and a step on the book in them.
ghost use Rattle.std.specs.Prelude.{◌≡◌, ◌≤◌};
ghost use Rattle.book_c.specs.Codes.{IsStepCode, LacksBook, RefusalKeeps, Steps};
ghost use Rattle.book_c.specs.Held.{HoldsSome};

use crate::codes::NO_BOOK;
use crate::handle::Handle;
use crate::legal_book::LegalBook;
use c_handle::held;
use wait_book::steps::Step;

/// The words in which C keeps a book, all bytes 0 at first. `live` is 1 while there is a book. It isn't `Drop`: a book
/// in it has to be taken out.
#[repr(C)]
pub struct Held {
    pub(crate) live: u64,
    spare: *mut u8,
    pub(crate) handle: Handle,
    ghost same: { live ≡ handle.live },
    ghost few: { live ≤ 1 },
}

impl Held {
    ghost use Rattle.std.specs.Borrow.{sem};
    ghost use Rattle.book_c.specs.Words.{of_c, LendsWords};

    // Returns the same words as those of a generic handle.
    #[inline(always)]
    pub(crate) fn held(&mut self) -> &mut held::Held<LegalBook>
        ensures* writes_back { sem 𝓛 (LendsWords self.entry result) }
        ensures value { result.now ≡ of_c self.old }
    {
        unsafe { &mut *(self as *mut Held as *mut held::Held<LegalBook>) }
    }

    /// Does `step`, and returns the number of the place that is inside then, below 64, or `FREE`. Refused: `NO_BOOK`,
    /// else as `Book::try_step`. A refusal changes nothing.
    pub(crate) fn step(&mut self, step: Step) -> u64
        ensures of { Steps self.old.live self.old.handle.value step self.new.live
            self.new.handle.value result }
        ensures refused { RefusalKeeps self.old.handle.value self.new.handle.value result }
        ensures none { LacksBook self.old.live self.old self.new result }
        ensures legal { HoldsSome self.old.live self.old.handle.value × HoldsSome self.new.live self.new.handle.value }
        ensures bounds { IsStepCode self.new.handle.value.sizes.places result }
    {
        let Some(book) = self.held().get_mut() else {
            return NO_BOOK;
        };
        book.step(step)
    }
}

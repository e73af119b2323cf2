//! Tests of the book: its calls once, on a book in use. What they return is proved.
use crate::tests::compared::expect_same;
use hoare_law::waits::Waits;
use std::test::Fail;
use wait_book::book::Book;
use wait_book::steps::{Next, Step};

#[test]
fn a_book_in_use_answers(rt: HostRuntime) -> Result<(), Fail> {
    let mut book = Book::make(rt.alloc(), 4, 2, 0)?;
    book.try_step(Step::Enter(0))?;
    book.try_step(Step::Wait(0, 1, 9))?;
    book.try_step(Step::Enter(1))?;
    book.try_step(Step::Wait(1, 1, 2))?;
    book.try_step(Step::Enter(2))?;
    let found = (book.now(), book.outside(3), book.has_waiter(1, 0));
    expect_same(&rt, found, (Next::Held(2), true, true));
    let waits = (book.queue(1), book.first(1), book.count(1));
    assert_eq!(rt; waits, (true, Some(2), 2)); // so that `priority` can be asked for
    expect_same(&rt, book.priority(1, 1), 9);
    expect_same(&rt, book.try_signal_to(2, 1, 0), Ok(Next::Held(0)));
    Ok(())
}

//! A mailbox of fixed room. The most urgent letter is received first. If senders wait for room, the sender with the
//! most urgent letter resumes first.
ghost use Rattle.std.specs.Prelude.{◌≡◌, ◌<◌, ◌↔◌, ◌++◌, ◌∷◌, [], IsTrue, length};
ghost use Rattle.hoare_law.specs.Priorities.{nobody};
ghost use Rattle.cookbook.specs.Mailboxes.{MailRests, TakesMostUrgent};
ghost use Rattle.cookbook.specs.MailboxTraces.{Sends, Receives};

use arrayvec::ArrayVec;
use hoare_law::data::MonitorData;
use hoare_law::monitor::{Monitor, PLAIN};
use hoare_law::waits::Waits;
use std::marker::Model;
use std::sync::Wait;

/// Number of letters that a `Mailbox` has room for.
pub const ROOM: usize = 8;

/// The condition *there is room* of a `Mailbox`: senders wait there.
pub const THERE_IS_ROOM: usize = 0;

/// The condition *there is mail* of a `Mailbox`: receivers wait there.
pub const THERE_IS_MAIL: usize = 1;

/// A letter, with its priority and its content.
#[derive(Clone, Copy, Debug, Default, PartialEq, Eq)]
pub struct Letter {
    /// How urgent the letter is: the least number is received first.
    pub priority: u64,
    /// Content of the letter. The mailbox doesn't use it.
    pub word: u64,
}

/// The data of the monitor: the letters that no process has received, in the order in which they were sent.
///
/// Condition 0 is *there is room* (`THERE_IS_ROOM`): a sender waits there with the priority of its letter. Condition 1
/// is *there is mail* (`THERE_IS_MAIL`).
#[derive(Drop)]
pub struct Mailbox {
    letters: ArrayVec<Letter, ROOM>,
}

impl Model for Mailbox {
    ghost use Rattle.std.specs.Prelude.{List};
    ghost use Rattle.cookbook.specs.declared.mailbox.Letter.{Letter};

    ghost Value = { List Letter };

    ghost view = { λ m. m.letters.items };
}

impl MonitorData for Mailbox {
    ghost use Rattle.std.specs.Prelude.{◌≤◌, length};
    ghost use Rattle.cookbook.specs.Mailboxes.{MailRests, MailReady, within_of_ready};

    const CONDITIONS: usize = 2;

    ghost CONDITIONS = { 2 };

    const MESA: usize = 0;

    ghost MESA = { 0 };

    ghost inv = { λ letters. length letters ≤ 8 };

    ghost rest = { λ letters q. MailRests (length letters) (q 0) (q 1) };

    ghost ready = { λ c p letters q. MailReady c (length letters) (q 0) (q 1) };

    fn rest_holds<W: Waits>(&self, lists: &W) -> bool {
        let count = self.letters.len();
        (lists.count(THERE_IS_ROOM) == 0 || count == ROOM)
            && (lists.count(THERE_IS_MAIL) == 0 || count == 0)
    }

    fn ready_holds<W: Waits>(&self, condition: usize, priority: u64, lists: &W) -> bool {
        let count = self.letters.len();
        if condition == THERE_IS_ROOM {
            count < ROOM
                && (lists.count(THERE_IS_ROOM) == 0 || count + 1 == ROOM)
                && (lists.count(THERE_IS_MAIL) == 0 || count == 0)
        } else {
            count > 0
                && (lists.count(THERE_IS_MAIL) == 0 || count == 1)
                && (lists.count(THERE_IS_ROOM) == 0 || count == ROOM)
        }
    }

    ghost rest_inv = { λ letters q h. h.within };

    ghost ready_inv = { λ c p letters q h. within_of_ready c (length letters) (q 0) (q 1) h };
}

impl Mailbox {
    /// Creates a mailbox without letters.
    pub fn new() -> Mailbox
        ensures made { result ≡ [] }
        ensures rest { MailRests (length result) (nobody 0) (nobody 1) }
    {
        Mailbox {
            letters: ArrayVec::new(),
        }
    }

    // Returns true if there is no room.
    fn is_full(&self) -> bool
        ensures { IsTrue result ↔ (length self.now ≡ ROOM) }
    {
        self.letters.len() == ROOM
    }

    // Returns true if there is no letter.
    fn is_empty(&self) -> bool
        ensures { IsTrue result ↔ (length self.now ≡ 0) }
    {
        self.letters.is_empty()
    }

    // Adds a letter as the latest.
    fn put(&mut self, letter: Letter)
        requires { length self.old < ROOM }
        ensures { self.new ≡ self.old ++ letter ∷ [] }
    {
        self.letters.push(letter);
    }

    // Removes the most urgent letter and returns it; of equally urgent ones, that which was sent first.
    fn take(&mut self) -> Letter
        requires { 0 < length self.old }
        ensures { TakesMostUrgent self.old result self.new }
    {
        let mut best = 0usize;
        for i in 0..self.letters.len() {
            if self.letters[i].priority < self.letters[best].priority {
                best = i;
            }
        }
        self.letters.remove(best)
    }

    /// Sends `letter`, and resumes a process that waits for mail if there is one. Waits if the mailbox is full, with
    /// the priority of `letter`: of the waiting senders, the sender with the most urgent letter resumes first.
    pub fn send<R: Wait, M: Monitor<Mailbox>>(m: &M, rt: &R, out: M::Out, letter: Letter) -> M::Out
        requires { M.is_of m.now out }
        ensures of { M.is_of m.now result }
        ensures place { M.place result ≡ M.place out }
        ensures trace { Sends (M.place out) letter (M.front out) (M.front result) }
    {
        let mut inside = m.enter(rt, out);
        if m.state(&inside).is_full() {
            inside = m.wait(rt, inside, THERE_IS_ROOM, letter.priority);
        }
        M::state_mut(&mut inside, m).put(letter);
        let (out, _resumed) = m.signal_leave(rt, inside, THERE_IS_MAIL);
        out
    }

    /// Receives the most urgent letter; of equally urgent ones, that which was sent first. Resumes a process that waits
    /// for room if there is one. Waits if the mailbox is empty.
    pub fn receive<R: Wait, M: Monitor<Mailbox>>(m: &M, rt: &R, out: M::Out) -> (M::Out, Letter)
        requires { M.is_of m.now out }
        ensures of { M.is_of m.now result.0 }
        ensures place { M.place result.0 ≡ M.place out }
        ensures trace { Receives (M.place out) result.1 (M.front out) (M.front result.0) }
    {
        let mut inside = m.enter(rt, out);
        if m.state(&inside).is_empty() {
            inside = m.wait(rt, inside, THERE_IS_MAIL, PLAIN);
        }
        let letter = M::state_mut(&mut inside, m).take();
        let (out, _resumed) = m.signal_leave(rt, inside, THERE_IS_ROOM);
        (out, letter)
    }
}

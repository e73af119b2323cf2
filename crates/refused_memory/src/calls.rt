//! Calls by name: all that allocate. Each takes no memory except that of the named call.

use crate::answer::Answer;
use crate::services::{reads_jobs, runs, serves};
use baton_door::door::Door;
use disk_jobs::kind::Kind;
use hoare_script::{ScriptFault, run};
use plain_schedulers::buffer::mesa::MesaBuffer;
use plain_schedulers::buffer::{Buffer, BufferRefused};
use std::alloc::{AllocError, Global};
use std::collections::VecDeque;
use std::sync::Wait;
use std::thread::Threads;
use test_support::fake::Fake;
use test_support::tally::Tally;
use ticket_door::door::TicketDoor;
use ticket_door::laws::make_at;
use timed_schedulers::pool::{Pool, PoolRefused};
use wait_book::book::Book;
use wait_book::steps::MakeRefused;

const SCRIPT: &[u8] = b"monitor 2 1\nenter 0\nwait 0 0 0\nenter 1\nsignal 1 0\nleave 0\nleave 1\n";

const DATA: Tally = Tally { value: 7 };

/// Does the call of this name. Returns `Unknown` if there is none.
pub fn call<R: Threads + Wait + Sync>(rt: &R, alloc: Global, name: &[u8]) -> Answer {
    if let Some(answer) = makes(alloc, name) {
        return answer;
    }
    match name {
        b"hoare_script::run" => runs_script(alloc),
        b"read_jobs" => reads_jobs(alloc),
        b"serve" => serves(rt, alloc, Kind::Baton),
        b"serve_tickets" => serves(rt, alloc, Kind::Ticket),
        b"disk_service::run baton" => runs(rt, alloc, Kind::Baton),
        b"disk_service::run ticket" => runs(rt, alloc, Kind::Ticket),
        _ => Answer::Unknown,
    }
}

// Does the call of this name if it makes a book, a door, the data of a scheduler or a fake.
fn makes(alloc: Global, name: &[u8]) -> Option<Answer> {
    let answer = match name {
        b"Book::make" => made(Book::make(alloc, 3, 2, 1), MakeRefused::Memory),
        b"Door::make" => door_made(Door::make(alloc, DATA, 3)),
        b"TicketDoor::make" => door_made(TicketDoor::make(alloc, DATA, 3)),
        b"laws::make_at" => door_made(make_at(alloc, DATA, 3, 5)),
        b"Buffer::make" => made(Buffer::<u64>::make(alloc, 16), BufferRefused::Memory),
        b"MesaBuffer::make" => made(MesaBuffer::<u64>::make(alloc, 16), BufferRefused::Memory),
        b"Pool::make" => made(Pool::make(alloc, 16, 4), PoolRefused::Memory),
        b"Fake::of" => made(Fake::of(alloc, DATA, VecDeque::new(alloc)), AllocError),
        _ => return None,
    };
    Some(answer)
}

// Returns the answer to a making, which has to be refused as `memory` if it is refused.
fn made<T: Drop, E: Copy + PartialEq>(made: Result<T, E>, memory: E) -> Answer {
    match made {
        Ok(_made) => Answer::Made,
        Err(refused) => Answer::memory_if(refused == memory),
    }
}

// Returns the answer to the making of a door. The data have to come back if it is refused.
fn door_made<T: Drop>(made: Result<T, (Tally, MakeRefused)>) -> Answer {
    match made {
        Ok(_door) => Answer::Made,
        Err((data, refused)) => Answer::memory_if(refused == MakeRefused::Memory && data == DATA),
    }
}

// Runs a script. Its writer is the rest of an array, so it takes no memory.
fn runs_script(alloc: Global) -> Answer {
    let mut reader = SCRIPT;
    let mut room = [0u8; 128];
    let mut writer = room.as_mut_slice();
    match run(alloc, &mut reader, &mut writer) {
        Ok(()) => Answer::Made,
        Err(fault) => Answer::memory_if(fault == ScriptFault::Memory && writer.len() == 128),
    }
}

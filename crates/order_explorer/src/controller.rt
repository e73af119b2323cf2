//! The controller that the threads of a run share: it notes what they do, and resumes them one at a time.

use crate::event_log::{EventLog, Note};
use crate::run_state::{Act, RunState};
use crate::schedule::{Ending, Schedule};
use std::alloc::{AllocError, Global};
use std::sync::{Condvar, Mutex, MutexGuard, Wait};

/// The state of the run under a lock, a bell for each place, and one for the thread that awaits the end of the run.
#[derive(Drop)]
pub(crate) struct Controller {
    /// What is known of the run, and whose turn it is.
    pub state: Mutex<RunState>,
    bells: Vec<Condvar>,
    ended: Condvar,
    never: Condvar,
    notes: EventLog,
}

impl Controller {
    /// Creates the controller of runs with `threads` threads and at most `steps` steps. Refuses if an allocation fails.
    pub fn make(
        alloc: Global,
        threads: usize,
        steps: usize,
        state: RunState,
    ) -> Result<Controller, AllocError> {
        let mut bells = Vec::with_capacity(alloc, threads)?;
        for _ in 0..threads {
            bells.push(Condvar::new())?;
        }
        Ok(Controller {
            state: Mutex::new(state),
            bells,
            ended: Condvar::new(),
            never: Condvar::new(),
            notes: EventLog::none(alloc, steps)?,
        })
    }

    // Wakes the thread whose turn it is, or, if the run is over, the thread that awaits its end.
    fn ring(&self, state: &RunState) {
        if state.is_over() {
            self.ended.notify_all();
            return;
        }
        let Some(place) = state.turn() else {
            return;
        };
        if let Some(bell) = self.bells.get(place) {
            bell.notify_one();
        }
    }

    // Blocks until it is the turn of `place`. If the run is cut off, that turn never comes.
    fn await_turn<R: Wait>(&self, rt: &R, state: MutexGuard<'_, RunState>, place: usize) {
        if let Some(bell) = self.bells.get(place) {
            let _state = bell.wait_while(rt, state, |seen| !seen.is_turn_of(place));
        }
    }

    /// Blocks until it is the turn of the thread `place` to begin its part in the next run. Returns false if there is
    /// no further run, or no such thread.
    pub fn begin<R: Wait>(&self, rt: &R, place: usize) -> bool {
        let Some(bell) = self.bells.get(place) else {
            return false;
        };
        let state = bell.wait_while(rt, self.state.lock(rt), |seen| {
            !seen.is_stopped() && !seen.is_turn_of(place)
        });
        !state.is_stopped()
    }

    /// Logs a non-blocking call. It is reported at the next call of `act`.
    pub fn note(&self, note: Note) {
        self.notes.add(note);
    }

    // Reports all logged calls to `state`.
    fn hear_notes(&self, state: &mut RunState) {
        for at in 0..self.notes.take_count() {
            state.hear(self.notes.get(at));
        }
    }

    /// Notes that `place` is to enter, and blocks until it is admitted.
    pub fn ask<R: Wait>(&self, rt: &R, place: usize) {
        let mut state = self.state.lock(rt);
        state.ask(place);
        self.ring(&state);
        self.await_turn(rt, state, place);
    }

    /// Reports the logged calls, and then an act of the process inside. If the run is over then, the caller sleeps for
    /// ever.
    pub fn act<R: Wait>(&self, rt: &R, act: Act) {
        let mut state = self.state.lock(rt);
        self.hear_notes(&mut state);
        state.act(act);
        self.ring(&state);
        let _state = self.never.wait_while(rt, state, |seen| seen.is_over());
    }

    /// Blocks until it is the turn of the place inside. That is the caller's place, back from a wait or a signal.
    pub fn come_back<R: Wait>(&self, rt: &R) {
        let state = self.state.lock(rt);
        if let Some(place) = state.inside() {
            self.await_turn(rt, state, place);
        }
    }

    /// Begins a run.
    pub fn start<R: Wait>(&self, rt: &R) {
        let mut state = self.state.lock(rt);
        state.start();
        self.ring(&state);
    }

    /// Ends the exploration: threads that wait for the next run end.
    pub fn stop<R: Wait>(&self, rt: &R) {
        let mut state = self.state.lock(rt);
        state.stop();
        for bell in self.bells.as_slice() {
            bell.notify_all();
        }
    }

    /// Prepares the choices of the next run. Returns false if all orders were tried.
    pub fn turn_choices<R: Wait>(&self, rt: &R) -> bool {
        let mut state = self.state.lock(rt);
        state.turn_choices()
    }

    /// Notes that the thread of `place` has ended, with this answer.
    pub fn finish<R: Wait>(&self, rt: &R, place: usize, answer: u64) {
        let mut state = self.state.lock(rt);
        state.finish(place, answer);
        self.ring(&state);
    }

    /// Blocks until the run is over, and returns how it ended.
    pub fn await_ending<R: Wait>(&self, rt: &R) -> Ending {
        let state = self
            .ended
            .wait_while(rt, self.state.lock(rt), |seen| !seen.is_over());
        match state.ending() {
            Some(ending) => ending,
            None => Ending::Refused,
        }
    }

    /// Takes out the record of the run, with the given ending.
    pub fn take_schedule<R: Wait>(&self, rt: &R, alloc: Global, ending: Ending) -> Schedule {
        let mut state = self.state.lock(rt);
        state.take_schedule(alloc, ending)
    }
}

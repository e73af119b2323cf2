//! The monitor of a script, and what each of its places does.
ghost use Rattle.std.specs.Prelude.{◌≡◌, ◌<◌, ◌≤◌, ◌==◌, ◌↔◌, ℕ, None, IfOk, MatchOption, false, length};
ghost use Rattle.std.specs.Prelude.{if◌then◌else◌, slice_index_or};
ghost use Rattle.std.specs.Result.{MatchResult};
ghost use Rattle.hoare_law.specs.declared.event.History.{History};
ghost use Rattle.wait_book.specs.Contents.{make_refusal};
ghost use Rattle.hoare_script.specs.Answers.{answer_to, history_after};
ghost use Rattle.hoare_script.specs.Lines.{sizes_in};
ghost use Rattle.hoare_script.specs.Runs.{is_read_fault};
ghost use Rattle.picture_program.specs.declared.monitor.Lane.{Lane};
ghost use Rattle.picture_program.specs.declared.monitor.Lane.TheVariants as states;
ghost use Rattle.picture_program.specs.Faults.{header_fault};
ghost use Rattle.picture_program.specs.Lanes.{AreLanes, Does, IsAt, actor, last_commanded, left_as, numbered};
ghost use Rattle.picture_program.specs.Lanes.{opening};

use hoare_script::ScriptFault;
use hoare_script::answers::Answer;
use hoare_script::lines::{Command, Header};
use hoare_script::opened::Opened;
use std::alloc::Global;
use wait_book::steps::{MakeRefused, Step};

/// What a place does.
#[derive(Clone, Copy, Debug, PartialEq, Eq)]
pub enum Lane {
    /// It is outside.
    Outside,
    /// It is inside.
    Inside,
    /// It waits on this condition, with this priority.
    Waiting(u64, u64),
    /// It signalled, and waits to return.
    Signalling,
    /// It was notified, and hasn't resumed yet. The number is its position among such processes: 1 resumes first.
    Called(usize),
}

/// What each of at most 64 places does.
pub type Lanes = [Lane; 64];

/// The monitor of a script: its book, and what each place does by its own last step, or inside if it resumed since.
/// There a notified place still waits.
#[derive(Drop)]
pub struct Monitor {
    opened: Opened,
    last: Lanes,
}

impl Monitor {
    /// Opens the monitor of a header, with all places outside. Refuses with `BadHeader` if a book refuses the header's
    /// numbers, and with `Memory` if an allocation fails.
    pub fn open(alloc: Global, header: Header) -> Result<Monitor, ScriptFault>
        ensures monitor { IfOk result (λ m. (header.places ≤ 64) × IsAt m (opening header)) }
        ensures fault { is_read_fault result ≡ false }
        ensures refused { let refusal = make_refusal (sizes_in header) in
            MatchResult result (λ m. refusal ≡ None) (λ f. f ≡ header_fault refusal) }
    {
        match Opened::make(alloc, header) {
            Ok(opened) => Ok(Monitor {
                opened,
                last: [Lane::Outside; 64],
            }),
            Err(MakeRefused::Memory) => Err(ScriptFault::Memory),
            Err(_) => Err(ScriptFault::BadHeader(1)),
        }
    }

    /// Does a command, and returns the answer: both by the history, to which the monitor adds the command's events.
    pub fn act(&mut self, command: Command) -> Answer
        ensures { (h : History (Unit {0})) → IsAt self.old h
            → (result ≡ answer_to h command) × IsAt self.new (history_after h command) }
    {
        let answer = self.opened.answer(command);
        move_places(&mut self.last, command, answer);
        answer
    }

    /// Returns what a place does.
    pub fn lane(&self, place: usize) -> Lane
        ensures { (h : History (Unit {0})) → IsAt self.now h → place < 64
            → (lane : Lane) → Does h place lane ↔ (lane ≡ result) }
    {
        let number = self.opened.notified_position(place);
        numbered(number, lane_at(&self.last, place as u64))
    }

    /// Returns what each place does.
    pub fn lanes(&self) -> Lanes
        ensures { (h : History (Unit {0})) → IsAt self.now h → AreLanes h result }
    {
        let mut lanes = [Lane::Outside; 64];
        'places: for place in 0..64 {
            lanes[place] = self.lane(place);
        }
        lanes
    }
}

/// Returns what a place does by these lanes. A place past the last lane is outside.
pub fn lane_at(lanes: &Lanes, place: u64) -> Lane
    ensures { result ≡ slice_index_or lanes.now place states.Outside }
{
    match lanes.get(place as usize) {
        Some(lane) => *lane,
        None => Lane::Outside,
    }
}

/// Returns the first place that does this by these lanes.
pub fn place_that(lanes: &Lanes, lane: Lane) -> Option<usize>
    ensures { MatchOption result
        ((k : ℕ) → k < 64 → slice_index_or lanes.now k states.Outside ≡ lane → ⊥)
        (λ k. (k < 64) × (slice_index_or lanes.now k states.Outside ≡ lane)) }
{
    'places: for place in 0..64 {
        if lanes[place] == lane {
            return Some(place);
        }
    }
    None
}

// Returns the place that does a step.
fn actor(step: Step) -> u64
    ensures { result ≡ actor step }
{
    match step {
        Step::Enter(place) => place,
        Step::Wait(place, _, _) => place,
        Step::Signal(place, _) => place,
        Step::Pass(place, _) => place,
        Step::Leave(place) => place,
        Step::Notify(place, _) => place,
        Step::Broadcast(place, _) => place,
    }
}

// Returns what the place that does a step does after it, unless it is inside.
fn left_as(step: Step) -> Lane
    ensures { result ≡ left_as step }
{
    match step {
        Step::Enter(_) => Lane::Inside,
        Step::Wait(_, condition, priority) => Lane::Waiting(condition, priority),
        Step::Signal(_, _) => Lane::Signalling,
        Step::Pass(_, _) => Lane::Outside,
        Step::Leave(_) => Lane::Outside,
        Step::Notify(_, _) => Lane::Inside,
        Step::Broadcast(_, _) => Lane::Inside,
    }
}

// Returns what a place does that did `last` by its own last step, by its number among the notified.
fn numbered(number: usize, last: Lane) -> Lane
    ensures { result ≡ numbered number last }
{
    match last {
        Lane::Waiting(_, _) if number > 0 => Lane::Called(number),
        _ => last,
    }
}

// Moves the places past a command: the place of the answer is inside, and the place of the step does what the step
// leaves it doing. A refused step and a question change nothing.
fn move_places(last: &mut Lanes, command: Command, answer: Answer)
    ensures length { length last.new ≡ length last.old }
    ensures each { (k : ℕ) → k < length last.old → slice_index_or last.new k states.Outside
        ≡ last_commanded command k (slice_index_or last.old k states.Outside) answer }
{
    let Command::Do(step) = command else {
        return;
    };
    match answer {
        Answer::Refused(_) => {}
        Answer::Inside(place) => {
            set(last, actor(step), left_as(step));
            set(last, place as u64, Lane::Inside);
        }
        Answer::Free | Answer::Waiting(_) | Answer::Nobody | Answer::Priority(_) => {
            set(last, actor(step), left_as(step));
        }
    }
}

// Sets what a place does. A place past the last lane has none.
fn set(last: &mut Lanes, place: u64, lane: Lane)
    ensures length { length last.new ≡ length last.old }
    ensures each { (k : ℕ) → k < length last.old → slice_index_or last.new k states.Outside
        ≡ (if place == k then lane else slice_index_or last.old k states.Outside) }
{
    if place < 64 {
        last[place as usize] = lane;
    }
}

//! The calls of `Monitor` on an `Explored`: the controller notes each of them, and the door does it.

use crate::event_log::Note;
use crate::explored::{Explored, number_of};
use crate::run_state::Act;
use door_frame::place::{Inside, Outside};
use hoare_law::data::MonitorData;
use hoare_law::monitor::Monitor;
use std::sync::Wait;
use wait_book::book::Book;

impl<D: MonitorData + Send> Monitor<D> for Explored<D> {
    ghost use Rattle.std.specs.Prelude.{◌≡◌, ◌≢◌, ◌<◌, ℕ, refl};
    ghost use Rattle.hoare_law.specs.Priorities.{priorities};
    ghost use Rattle.hoare_law.specs.Sizes.{kinds_of};
    ghost use Rattle.any_door.specs.Doors.{id_of, refuses_at};
    ghost use Rattle.hoare_law.proofs.Priorities.{IsNonDecreasing-priorities};
    ghost use Rattle.door_frame.specs.Places.{PlaceIn, IsOut, IsIn, with_state};

    type Out = Outside<D>;

    type In = Inside<D>;

    type Lists = Book;

    ghost is_of = { λ m o. IsOut D.rest D.ready (kinds_of D.CONDITIONS D.MESA) (id_of m.door) o };

    ghost is_of_in = { λ m i. IsIn D.rest D.ready (kinds_of D.CONDITIONS D.MESA) (id_of m.door) i };

    ghost place = { λ o. o.place };

    ghost place_in = { λ i. i.place };

    ghost data_in = { λ i. i.state };

    ghost lists_in = { λ i. priorities i.front.events };

    ghost front = { λ o. o.front };

    ghost front_in = { λ i. i.front };

    ghost refuses = { λ m k f h. refuses_at m.door k f h };

    ghost with_data = { λ i d. with_state i d };

    fn enter<R: Wait>(&self, rt: &R, out: Outside<D>) -> Inside<D> {
        let (out, place) = number_of(out);
        self.controller.ask(rt, place);
        self.door.enter(rt, out)
    }

    fn try_enter(&self, out: Outside<D>) -> Result<Inside<D>, Outside<D>> {
        let (out, place) = number_of(out);
        let answer = self.door.try_enter(out);
        if answer.is_ok() {
            self.controller.note(Note::Enter(place));
        }
        answer
    }

    fn leave<R: Wait>(&self, rt: &R, inside: Inside<D>) -> Outside<D> {
        self.controller.act(rt, Act::Leave);
        self.door.leave(rt, inside)
    }

    fn wait<R: Wait>(
        &self,
        rt: &R,
        inside: Inside<D>,
        condition: usize,
        priority: u64,
    ) -> Inside<D> {
        self.controller.act(rt, Act::Wait(condition, priority));
        let inside = self.door.wait(rt, inside, condition, priority);
        self.controller.come_back(rt);
        inside
    }

    fn signal<R: Wait>(&self, rt: &R, inside: Inside<D>, condition: usize) -> (Inside<D>, bool) {
        self.controller.act(rt, Act::Signal(condition));
        let answer = self.door.signal(rt, inside, condition);
        self.controller.come_back(rt);
        answer
    }

    fn signal_leave<R: Wait>(
        &self,
        rt: &R,
        inside: Inside<D>,
        condition: usize,
    ) -> (Outside<D>, bool) {
        self.controller.act(rt, Act::Pass(condition));
        self.door.signal_leave(rt, inside, condition)
    }

    fn notify(&self, inside: &mut Inside<D>, condition: usize) -> bool {
        self.controller.note(Note::Notify(condition));
        self.door.notify(inside, condition)
    }

    fn broadcast(&self, inside: &mut Inside<D>, condition: usize) -> usize {
        self.controller.note(Note::Broadcast(condition));
        self.door.broadcast(inside, condition)
    }

    fn state<'a>(&self, inside: &'a Inside<D>) -> &'a D {
        inside.state()
    }

    fn state_mut<'a>(inside: &'a mut Inside<D>, monitor: &Self) -> &'a mut D {
        let guarded = &mut inside.guarded;
        &mut guarded.held.contents.state
    }

    fn lists<'a>(&self, inside: &'a Inside<D>) -> &'a Book {
        inside.lists()
    }

    fn queue(&self, inside: &Inside<D>, condition: usize) -> bool {
        inside.queue(condition)
    }

    fn first(&self, inside: &Inside<D>, condition: usize) -> Option<u64> {
        inside.first(condition)
    }

    ghost stands = { λ m o h. (h.stands, λ j. (h.sized j).conditions, λ j. (h.sized j).mesa, h.is_outside) };

    ghost stands_in = { λ m i h. (h.stands, λ j. (h.sized j).conditions, λ j. (h.sized j).mesa, h.is_inside) };

    ghost lists_are = { λ m i h. refl };

    ghost rise = { λ m i c h. IsNonDecreasing-priorities i.front.events c };

    ghost takes_data = { λ i d. refl };

    ghost keeps_of = { λ m i d h. record {
      of = h.of;
      sized = h.sized;
      stands = h.stands;
      is_inside = h.is_inside;
    } };

    ghost keeps_place = { λ i d. refl };

    ghost keeps_lists = { λ i d. refl };

    ghost keeps_front = { λ i d. refl };
}

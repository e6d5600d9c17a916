// The queue of connections, and what is known of it.
//
// Each thread has a pass, which says what the thread has put into the queue and taken from it. The
// rule ties all passes to what stands in the queue. A pass counts for some parts of a whole of 65,
// one for each of the most workers and one for who hands the connections out, so that whoever has
// all parts, at the end, knows that nothing else was put or taken.

use crossbeam_channel::protocol::{Join, Lesson, Outcome, Protocol, Split};
use crossbeam_channel::{RuledReceiver, RuledSender};
use std::collections::LinkedList;

// What stands in the queue: a connection under its number, or the end of a worker.
#[derive(Drop)]
pub(crate) enum Job<T> {
    Serve(u64, T),
    Stop,
}

// What a pass has put and taken, and how many parts it has. No value of it is made.
pub(crate) struct PassState {
    pub parts: u64,
    pub put: LinkedList<u64>,
    pub taken: LinkedList<u64>,
}

// The rule: each number that was put was taken, or stands in the queue.
pub(crate) struct Balance;

impl<T> Protocol<Job<T>, PassState> for Balance {
    ghost use Rattle.std.specs.Prelude.{[]};
    ghost use Rattle.journal_server.specs.Queues.{IsBalanced, pass_state};

    ghost holds = { IsBalanced };

    ghost first = { pass_state 65 [] [] };
}

// Cuts a part off a pass, and puts passes together.
pub(crate) struct Cut;

impl Split<PassState> for Cut {
    ghost use Rattle.std.specs.Prelude.{[], ◌-◌};
    ghost use Rattle.journal_server.specs.Queues.{pass_state};

    ghost left = { λ v. pass_state (v.parts - 1) v.put v.taken };

    ghost right = { λ v. pass_state 1 [] [] };
}

impl Join<PassState> for Cut {
    ghost use Rattle.std.specs.Prelude.{[]};
    ghost use Rattle.journal_server.specs.Queues.{pass_state, both};

    ghost both = { both };

    ghost spent = { pass_state 0 [] [] };
}

// A job is put.
pub(crate) struct Puts;

impl<T> Outcome<Job<T>, PassState> for Puts {
    ghost use Rattle.std.specs.Prelude.{◌≡◌, [], ◌∷◌, ◌++◌};
    ghost use Rattle.journal_server.specs.Queues.{pass_state, numbers};

    ghost then = { λ v x w. w ≡ pass_state v.parts (v.put ++ numbers (x ∷ [])) v.taken };
}

impl<T> Lesson<Job<T>, PassState> for Puts {
    ghost use Rattle.std.specs.Prelude.{⊤};

    ghost fact = { λ v items. ⊤ };
}

// A job is taken.
pub(crate) struct Takes;

impl<T> Outcome<Job<T>, PassState> for Takes {
    ghost use Rattle.std.specs.Prelude.{◌≡◌, [], ◌∷◌, ◌++◌};
    ghost use Rattle.journal_server.specs.Queues.{pass_state, numbers};

    ghost then = { λ v x w. w ≡ pass_state v.parts v.put (v.taken ++ numbers (x ∷ [])) };
}

impl<T> Lesson<Job<T>, PassState> for Takes {
    ghost use Rattle.std.specs.Prelude.{⊤};

    ghost fact = { λ v items. ⊤ };
}

// A job is taken by who has every part. Where none is left, all that was put was taken.
pub(crate) struct Drains;

impl<T> Outcome<Job<T>, PassState> for Drains {
    ghost use Rattle.std.specs.Prelude.{◌≡◌, [], ◌∷◌, ◌++◌};
    ghost use Rattle.journal_server.specs.Queues.{pass_state, numbers};

    ghost then = { λ v x w. w ≡ pass_state v.parts v.put (v.taken ++ numbers (x ∷ [])) };
}

impl<T> Lesson<Job<T>, PassState> for Drains {
    ghost use Rattle.std.specs.Prelude.{◌≡◌, ◌+◌, ℕ};
    ghost use Rattle.journal_server.specs.Queues.{times, numbers};

    ghost fact = { λ v items. (x : ℕ) → times x v.put ≡ times x v.taken + times x (numbers items) };
}

pub(crate) type QueueSender<T> = RuledSender<Job<T>, PassState, Balance>;

pub(crate) type QueueReceiver<T> = RuledReceiver<Job<T>, PassState, Balance>;

//! The steps at the queue of an inbox, each of which keeps its rule: a put and a take, a part that is cut off and comes
//! back, and what is left, which is taken out by the pass that has every part.
ghost use Rattle.std.specs.Prelude.{◌≡◌, ℕ, List, ◌+◌, ◌-◌, ◌<◌, ◌≤◌, [], ◌∷◌, ◌++◌, All, MatchResult};
ghost use Rattle.std.specs.Prelude.{MatchOption, length, map, vec_capacity};
ghost use Rattle.crossbeam_queue.specs.Fifo.{Held};
ghost use Rattle.crossbeam_queue.specs.Passes.{view, IsPassOf, IsSamePass, ruled_capacity};
ghost use Rattle.hg_inbox.specs.Limits.{all_parts};
ghost use Rattle.hg_inbox.specs.Rule.{log, numbered, numbered_from, Put, Taken, Agrees, IsWhole};

use crate::rule::{Empties, InOrder, Log, Message, Parts, Puts, Seats, Takes};
use crossbeam_queue::{Pass, RuledArrayQueue};
use std::sync::Wait;

/// The queue of an inbox, under its rule.
pub(crate) type Queue = RuledArrayQueue<Message, Log, InOrder>;

/// What one caller knows of the queue. It takes no bytes.
pub(crate) type Known = Pass<Message, Log>;

/// Puts a message behind all others, or hands it back where the queue was full at one moment.
pub(crate) fn put<R: Wait>(
    rt: &R,
    queue: &Queue,
    pass: &mut Known,
    message: Message,
) -> Result<(), Message>
    requires { IsPassOf queue.now pass.old × (0 < (view pass.old).parts) }
    ensures same { IsSamePass pass.old pass.new }
    ensures put { MatchResult result (λ _. Put (view pass.old) message (view pass.new))
        (λ back. (back ≡ message) × (view pass.new ≡ view pass.old)
        × Held (ruled_capacity queue.now) (Agrees (view pass.old).puts (view pass.old).takes)) }
{
    queue.push_as::<Puts, R>(rt, pass, message)
}

/// Takes the first message, where the queue wasn't empty at one moment.
#[tactic(auto, using(crate::proofs::MoveLemmas::takes, crate::proofs::MoveLemmas::agrees))]
pub(crate) fn take<R: Wait>(rt: &R, queue: &Queue, pass: &mut Known) -> Option<Message>
    requires { IsPassOf queue.now pass.old × (0 < (view pass.old).parts) }
    ensures same { IsSamePass pass.old pass.new }
    ensures take { MatchOption result
        ((view pass.new ≡ view pass.old) × Held 0 (Agrees (view pass.old).puts (view pass.old).takes))
        (λ message. Taken (view pass.old) message (view pass.new)) }
{
    queue.pop_as::<Takes, R>(rt, pass)
}

/// Cuts a part off.
pub(crate) fn cut(queue: &Queue, pass: &mut Known) -> Known
    requires { IsPassOf queue.now pass.old × (1 < (view pass.old).parts) }
    ensures same { IsSamePass pass.old pass.new × IsPassOf queue.now result }
    ensures cut { (view pass.new ≡ log ((view pass.old).parts - 1) (view pass.old).puts (view pass.old).takes)
        × (view result ≡ log 1 [] []) }
{
    queue.another::<Seats>(pass)
}

/// Takes the parts of another pass in, with what it put and took.
pub(crate) fn give_back(queue: &Queue, pass: &mut Known, other: Known)
    requires { IsPassOf queue.now pass.old × IsPassOf queue.now other }
    ensures same { IsSamePass pass.old pass.new }
    ensures both { view pass.new ≡ log ((view pass.old).parts + (view other).parts)
        ((view pass.old).puts ++ (view other).puts) ((view pass.old).takes ++ (view other).takes) }
{
    queue.absorb::<Seats>(pass, other);
}

/// No pass has more parts than there are.
pub(crate) fn count_parts(queue: &Queue, pass: &mut Known)
    requires { IsPassOf queue.now pass.old }
    ensures same { IsSamePass pass.old pass.new × (view pass.new ≡ view pass.old) }
    ensures parts { (view pass.old).parts ≤ all_parts }
{
    queue.learn_as::<Parts>(pass);
}

/// How many messages are left, by the pass that has every part.
pub(crate) fn count<R: Wait>(rt: &R, queue: &Queue, pass: &mut Known) -> usize
    requires { IsPassOf queue.now pass.old × ((view pass.old).parts ≡ all_parts) }
    ensures same { IsSamePass pass.old pass.new × (view pass.new ≡ view pass.old) }
    ensures count { (result ≤ ruled_capacity queue.now)
        × (length (view pass.old).puts ≡ length (view pass.old).takes + result) }
{
    queue.len_as::<Empties, R>(rt, pass)
}

/// Takes a message that is left, by the pass that has every part.
pub(crate) fn take_left<R: Wait>(rt: &R, queue: &Queue, pass: &mut Known) -> Message
    requires { IsPassOf queue.now pass.old × ((view pass.old).parts ≡ all_parts)
        × (length (view pass.old).takes < length (view pass.old).puts) }
    ensures same { IsSamePass pass.old pass.new }
    ensures next { view pass.new ≡ log (view pass.old).parts (view pass.old).puts
        ((view pass.old).takes ++ numbered (length (view pass.old).takes) result ∷ []) }
{
    match queue.pop_as::<Empties, R>(rt, pass) {
        Some(message) => message,
        None => unreachable!(),
    }
}

/// What the whole is, by the pass that has every part.
pub(crate) fn learn(queue: &Queue, pass: &mut Known)
    requires { IsPassOf queue.now pass.old × ((view pass.old).parts ≡ all_parts) }
    ensures same { IsSamePass pass.old pass.new × (view pass.new ≡ view pass.old) }
    ensures whole { (items : List (List ℕ)) × IsWhole (view pass.old) items }
{
    queue.learn_as::<Empties>(pass);
}

/// Takes out all that is left, front first, by the pass that has every part.
pub(crate) fn take_rest<R: Wait>(
    rt: &R,
    queue: &Queue,
    pass: &mut Known,
    mut rest: Vec<Vec<u8>>,
) -> Vec<Vec<u8>>
    requires pass { IsPassOf queue.now pass.old × ((view pass.old).parts ≡ all_parts) }
    requires room { (rest.items ≡ []) × (ruled_capacity queue.now ≤ vec_capacity rest) }
    ensures bounded { length result.items ≤ ruled_capacity queue.now }
    ensures rest { (view pass.new ≡ log (view pass.old).parts (view pass.old).puts
        ((view pass.old).takes ++ numbered_from (length (view pass.old).takes) (map (λ m. m.items) result.items)))
        × IsWhole (view pass.new) [] }
{
    let left = count(rt, queue, pass);
    for _ in 0..left {
        let message = take_left(rt, queue, pass);
        rest.push_reserved(message.bytes);
    }
    learn(queue, pass);
    rest
}

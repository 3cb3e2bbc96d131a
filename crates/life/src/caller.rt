//! Who names the calls.
ghost use Rattle.std.specs.Prelude.{◌≡◌, List, Option, drop, slice_get};
ghost use Rattle.calls.specs.declared.call.Call.{Call};
ghost use Rattle.life.specs.Callers.{emptying};

use calls::call::{Answer, Call};
use std::marker::Model;

/// Told the last answer, a caller names the next call or ends.
pub trait Caller<L: Copy> {
    /// The call that it names next, if any.
    ghost names: { Self → L → Option Call };

    /// The caller then.
    ghost after: { Self → L → Self };

    fn next(&mut self, last: L) -> Option<Call>
        ensures named { result ≡ names self.old last }
        ensures moved { self.new ≡ after self.old last };
}

/// Names the calls of a list, one after the other, whatever is answered. It is known by the calls that are left.
#[derive(Drop)]
pub struct Replay<'c> {
    calls: &'c [Call],
}

impl<'c> Model for Replay<'c> {
    ghost Value = { List Call };

    ghost view = { λ s. s.calls.now };
}

impl<'c> Replay<'c> {
    /// All calls of this list.
    pub fn new(calls: &'c [Call]) -> Replay<'c>
        ensures { result ≡ calls.now }
    {
        Replay { calls }
    }
}

impl<'c, L: Copy> Caller<L> for Replay<'c> {
    ghost names = { λ calls l. slice_get calls 0 };

    ghost after = { λ calls l. drop 1 calls };

    fn next(&mut self, last: L) -> Option<Call> {
        self.calls.split_off_first().copied()
    }
}

/// Ticks, takes until a take is refused, and ticks again; it ends with the first tick that is refused.
#[derive(Clone, Copy)]
pub struct Emptying;

impl<V: Copy> Caller<Option<Answer<V>>> for Emptying {
    ghost names = { λ s l. emptying l };

    ghost after = { λ s l. s };

    fn next(&mut self, last: Option<Answer<V>>) -> Option<Call> {
        match last {
            None | Some(Answer::Taken(Err(_))) => Some(Call::Tick),
            Some(Answer::Ticked(Ok(()))) | Some(Answer::Taken(Ok(_))) => Some(Call::Take),
            Some(Answer::Ticked(Err(_))) | Some(Answer::Ends(_)) => None,
        }
    }
}

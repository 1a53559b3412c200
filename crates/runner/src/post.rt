//! The place of one worker in a run, and how it waits there.

ghost use Rattle.std.specs.Prelude.{◌≡◌, ◌+◌, ◌<◌, ◌≤◌, true, IfNone, IfSome};

use crate::signals::{Signals, Who};
use std::marker::Model;
use std::sync::Wait;

/// A sleep that nothing ended counts as this many turns. A worker that is awake needs about as long
/// for them.
const TURNS_OF_A_NAP: u64 = 16_384;

/// The place of one worker in a run. It counts the turns in a row in which nothing moved, neither at
/// this place nor at any other of the run. Once they are as many as there may be, the turns are
/// spent.
#[derive(Drop)]
pub struct Post<'a> {
    signals: &'a Signals,
    who: Who,
    /// The most turns in a row in which nothing moves.
    turns: u64,
    /// For how many turns in a row nothing has moved.
    still: u64,
    /// For how many turns in a row this worker has moved nothing, since it was last woken.
    idle: u64,
    /// How often something had moved in the run, when that was last looked at, and how often this
    /// worker moved something since.
    moves: u64,
    /// How often this worker had been woken, when it said that it is about to sleep, if it did.
    wakes: Option<u64>,
}

impl<'a> Model for Post<'a> {
    ghost use Rattle.runner.specs.Posts.{PostState};

    ghost Value = { PostState };

    ghost view = { λ p. record { turns = p.turns; still = p.still } };
}

/// The turns of a worker are spent: nothing has moved for at least as many turns in a row as it may
/// have. Only a [`Post`] makes one.
#[derive(Clone, Copy, Debug, PartialEq, Eq)]
pub struct Spent {
    turns: u64,
    still: u64,
}

impl Model for Spent {
    ghost use Rattle.std.specs.Prelude.{◌≤◌};
    ghost use Rattle.runner.specs.Posts.{PostState};

    ghost Value = { PostState };

    ghost view = { λ s. record { turns = s.turns; still = s.still } };

    ghost inverse = { λ v. record { turns = v.turns; still = v.still } };

    ghost invariant = { λ s. s.turns ≤ s.still };
}

impl<'a> Post<'a> {
    /// The place of this worker, with the most turns in a row in which nothing moves. No turn has
    /// passed.
    pub fn new(signals: &'a Signals, who: Who, turns: u64) -> Post<'a>
        ensures turns { result.turns ≡ turns }
        ensures still { result.still ≡ 0 }
    {
        Post {
            signals,
            who,
            turns,
            still: 0,
            idle: 0,
            moves: 0,
            wakes: None,
        }
    }

    /// Whether the worker has one more turn: the run has not been ended.
    pub fn begins(&mut self) -> bool
        ensures { self.new ≡ self.old }
    {
        !self.signals.are_over()
    }

    /// That the turns are spent; None as long as they are not.
    pub fn spent(&self) -> Option<Spent>
        ensures spent { IfSome result (λ spent. spent ≡ self.now) }
        ensures none { IfNone result (self.now.still < self.now.turns) }
    {
        if self.still < self.turns {
            return None;
        }
        Some(Spent {
            turns: self.turns,
            still: self.still,
        })
    }

    /// Ends a turn in which the worker moved something, or did not. After some turns of the second
    /// kind it sleeps, until it is rung for or some milliseconds are over. Whether something moved
    /// elsewhere is looked at after a sleep, and before the turns are spent.
    pub fn turned<R: Wait>(&mut self, rt: &R, moved: bool)
        ensures turns { self.new.turns ≡ self.old.turns }
        ensures moved { moved ≡ true → self.new.still ≡ 0 }
        ensures grows { self.new.still ≤ self.old.still + 16384 }
    {
        if moved {
            self.signals.count_move(self.who);
            self.moves = self.moves.wrapping_add(1);
            self.still = 0;
            self.idle = 0;
            if self.wakes.take().is_some() {
                self.signals.rise(self.who);
            }
            return;
        }
        let passed = self.rest(rt);
        self.still = self.still.saturating_add(passed);
        if passed > 1 || self.still >= self.turns {
            self.look();
        }
    }

    /// Counts the turns anew if something has moved since this was last looked at.
    fn look(&mut self)
        ensures turns { self.new.turns ≡ self.old.turns }
        ensures still { self.new.still ≤ self.old.still }
    {
        let moves = self.signals.moves();
        if moves != self.moves {
            self.still = 0;
        }
        self.moves = moves;
    }

    /// Lets the worker look again at once. After some turns it says that it is about to sleep, and sleeps once it has
    /// looked again. Says as how many turns that counts.
    /// It never yields: on a full machine, a thread that yields waits for all others each time.
    fn rest<R: Wait>(&mut self, rt: &R) -> u64
        ensures same { self.new ≡ self.old }
        ensures few { result ≤ 16384 }
    {
        if self.idle < self.signals.wakeful_turns() {
            self.idle += 1;
            return 1;
        }
        let Some(wakes) = self.wakes else {
            self.wakes = Some(self.signals.doze(self.who));
            return 1;
        };
        if !self.signals.sleep(rt, self.who, wakes) {
            return TURNS_OF_A_NAP;
        }
        self.wakes = None;
        self.idle = 0;
        1
    }

    /// Wakes another worker of the run, which may have something to do. It is a look at one word, as
    /// long as that worker is awake.
    pub fn ring(&self, who: Who) {
        self.signals.ring(who);
    }

    /// Has all workers of the run end.
    pub fn end(&self) {
        self.signals.end();
    }
}

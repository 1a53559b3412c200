//! What the workers of one run share: whether it is over, and of each worker how often it moved something, and its bell.

use crossbeam_utils::CachePadded;
use std::alloc::{AllocError, Global};
use std::sync::Wait;
use std::sync::atomic::{AtomicBool, AtomicU64, Ordering};
use std::time::Duration;

/// How long a worker sleeps at most, in milliseconds.
const NAP: u64 = 4;

/// A worker of a run.
#[derive(Clone, Copy, Debug, PartialEq, Eq)]
pub enum Who {
    /// One of the many of one kind, by its place among them.
    Many(usize),
    /// The first of the two others.
    One,
    /// The second of them.
    Other,
}

/// What wakes one worker: whether it sleeps or is about to, and how often it was woken.
#[derive(Drop)]
struct Bell {
    is_drowsy: AtomicBool,
    wakes: AtomicU64,
}

impl Bell {
    fn new() -> Bell {
        Bell {
            is_drowsy: AtomicBool::new(false),
            wakes: AtomicU64::new(0),
        }
    }

    /// Wakes the worker if it sleeps or is about to. A worker that is about to says so before its last look, and so sees
    /// what moved before this call. Of several that ring, one wakes it.
    fn ring(&self) {
        if self.is_drowsy.load(Ordering::SeqCst) && self.is_drowsy.swap(false, Ordering::SeqCst) {
            self.wake();
        }
    }

    fn wake(&self) {
        self.wakes.fetch_add(1, Ordering::SeqCst);
        self.wakes.wake_all();
    }

    /// Says that the worker is about to sleep, and how often it was woken before.
    fn doze(&self) -> u64 {
        let wakes = self.wakes.load(Ordering::SeqCst);
        self.is_drowsy.store(true, Ordering::SeqCst);
        wakes
    }

    /// Says that the worker is not about to sleep.
    fn rise(&self) {
        self.is_drowsy.store(false, Ordering::SeqCst);
    }

    /// Sleeps for a while, unless it was woken since it had been woken so often. Says whether it was.
    fn sleep<R: Wait>(&self, rt: &R, wakes: u64) -> bool {
        let low = (wakes % (1 << 32)) as u32;
        self.wakes.park_timeout(rt, low, Duration::from_millis(NAP));
        self.wakes.load(Ordering::SeqCst) != wakes
    }
}

/// What is shared of one worker. What others look at often has cache lines of its own, and so has what the worker writes
/// often.
#[derive(Drop)]
struct Place {
    bell: CachePadded<Bell>,
    /// How often the worker moved something.
    moves: CachePadded<AtomicU64>,
}

impl Place {
    fn new() -> Place {
        Place {
            bell: CachePadded::new(Bell::new()),
            moves: CachePadded::new(AtomicU64::new(0)),
        }
    }

    fn moves(&self) -> u64 {
        self.moves.load(Ordering::SeqCst)
    }
}

/// What the workers of one run share. It only says when to look, so nothing is claimed about it.
#[derive(Drop)]
pub struct Signals {
    is_over: CachePadded<AtomicBool>,
    wakeful_turns: u64,
    many: Vec<Place>,
    one: Place,
    other: Place,
}

impl Signals {
    /// The signals of this many workers of one kind and of two others. A worker may move nothing in this many turns in a
    /// row before it sleeps.
    pub fn new(alloc: Global, many: usize, wakeful_turns: u64) -> Result<Signals, AllocError> {
        let mut places = Vec::new(alloc);
        for _ in 0..many {
            places.push(Place::new())?;
        }
        Ok(Signals {
            is_over: CachePadded::new(AtomicBool::new(false)),
            wakeful_turns,
            many: places,
            one: Place::new(),
            other: Place::new(),
        })
    }

    /// The place of a worker, if there is such a worker.
    fn place(&self, who: Who) -> Option<&Place> {
        match who {
            Who::Many(place) => self.many.get(place),
            Who::One => Some(&self.one),
            Who::Other => Some(&self.other),
        }
    }

    /// In how many turns in a row a worker may move nothing before it sleeps.
    pub(crate) fn wakeful_turns(&self) -> u64 {
        self.wakeful_turns
    }

    /// Wakes a worker, or keeps one awake that is about to sleep.
    pub(crate) fn ring(&self, who: Who) {
        if let Some(place) = self.place(who) {
            place.bell.ring();
        }
    }

    /// Says that a worker is about to sleep, and how often it was woken before. It has one more turn before it sleeps.
    pub(crate) fn doze(&self, who: Who) -> u64 {
        self.place(who).map_or(0, |place| place.bell.doze())
    }

    /// Says that a worker is not about to sleep.
    pub(crate) fn rise(&self, who: Who) {
        if let Some(place) = self.place(who) {
            place.bell.rise();
        }
    }

    /// Lets a worker sleep that was woken so often before it said that it is about to, until it is rung for, or for some
    /// milliseconds. Says whether it was rung for since.
    pub(crate) fn sleep<R: Wait>(&self, rt: &R, who: Who, wakes: u64) -> bool {
        match self.place(who) {
            Some(place) => place.bell.sleep(rt, wakes),
            None => false,
        }
    }

    /// Counts that a worker moved something.
    pub(crate) fn count_move(&self, who: Who) {
        if let Some(place) = self.place(who) {
            place.moves.fetch_add(1, Ordering::SeqCst);
        }
    }

    /// How often something moved. Two calls give the same only if nothing was counted between them.
    pub(crate) fn moves(&self) -> u64 {
        let mut moves = self.one.moves().wrapping_add(self.other.moves());
        for place in &self.many {
            moves = moves.wrapping_add(place.moves());
        }
        moves
    }

    /// Has all workers end, and wakes them for that.
    pub(crate) fn end(&self) {
        self.is_over.store(true, Ordering::SeqCst);
        for place in &self.many {
            place.bell.wake();
        }
        self.one.bell.wake();
        self.other.bell.wake();
    }

    /// Whether all are to end.
    pub(crate) fn are_over(&self) -> bool {
        self.is_over.load(Ordering::SeqCst)
    }
}

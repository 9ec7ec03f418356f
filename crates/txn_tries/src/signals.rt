//! The words by which lanes and the merger wake each other.

use crossbeam_utils::CachePadded;
use std::sync::Wait;
use std::sync::atomic::{AtomicU64, Ordering};
use std::thread;

/// How often a lane that begins lets other threads run, at most, for the merger's thread to come up.
const MOST_YIELDS: u32 = 1000;

/// How many parts go on and how many began, and the words that change at each event that somebody sleeps for. No clause
/// rests on them.
///
/// Whoever waits reads a word first, then looks for what it waits for, and sleeps only if the word is as it was.
/// Whoever does what is waited for adds to the word after that, and wakes. A word
/// is compared in its low 32 bits.
#[derive(Drop)]
pub struct Signals {
    left: CachePadded<AtomicU64>,
    began: CachePadded<AtomicU64>,
    news: CachePadded<AtomicU64>,
    rounds: CachePadded<AtomicU64>,
    is_up: CachePadded<AtomicU64>,
}

/// The low 32 bits of a word, which a sleep compares.
fn low_bits(word: &AtomicU64) -> u32 {
    (word.load(Ordering::SeqCst) % 4_294_967_296) as u32
}

/// Adds 1 to a word, and wakes all that sleep for it.
fn change(word: &AtomicU64) {
    word.fetch_add(1, Ordering::SeqCst);
    word.wake_all();
}

impl Signals {
    /// For so many parts, of which none has begun or ended.
    pub fn new(parts: u64) -> Signals {
        Signals {
            left: CachePadded::new(AtomicU64::new(parts)),
            began: CachePadded::new(AtomicU64::new(0)),
            news: CachePadded::new(AtomicU64::new(0)),
            rounds: CachePadded::new(AtomicU64::new(0)),
            is_up: CachePadded::new(AtomicU64::new(0)),
        }
    }

    // ---- a part

    /// A part begins.
    pub fn part_begins(&self) {
        self.began.fetch_add(1, Ordering::SeqCst);
    }

    /// A part ends, once.
    pub fn part_ends(&self) {
        self.left.fetch_sub(1, Ordering::SeqCst);
        change(&self.news);
        change(&self.rounds);
    }

    /// How many parts began.
    pub fn began(&self) -> u64 {
        self.began.load(Ordering::SeqCst)
    }

    /// Whether all parts ended.
    pub fn have_all_ended(&self) -> bool {
        self.left.load(Ordering::SeqCst) == 0
    }

    /// Lets other threads run until the merger is up, but not for ever.
    pub fn await_merger(&self) {
        for _ in 0..MOST_YIELDS {
            if self.is_up.load(Ordering::SeqCst) != 0 {
                return;
            }
            thread::yield_now();
        }
    }

    /// Tells the merger that something was done that it may go on with.
    pub fn tell_news(&self) {
        change(&self.news);
    }

    /// Sleeps, at a full log, until the merger ended a round, or a part ended. Where no merger is up it only lets other
    /// threads run.
    pub fn wait_at_full<W: Wait>(&self, rt: &W) {
        let seen = self.rounds();
        if self.is_up.load(Ordering::SeqCst) == 0 {
            thread::yield_now();
            return;
        }
        self.tell_news();
        self.wait_for_round(rt, seen);
    }

    /// The word that changes with each round of the merger, and with each part that ends.
    pub fn rounds(&self) -> u32 {
        low_bits(&self.rounds)
    }

    /// Sleeps unless a round ended since `rounds` was read so. It may also return for no reason.
    pub fn wait_for_round<W: Wait>(&self, rt: &W, seen: u32) {
        self.rounds.park(rt, seen);
    }

    // ---- the merger

    /// The merger is up.
    pub fn rise(&self) {
        self.is_up.store(1, Ordering::SeqCst);
    }

    /// The word that changes with each thing that the merger is told of.
    pub fn news(&self) -> u32 {
        low_bits(&self.news)
    }

    /// Sleeps unless the merger was told of something since `news` was read so. It may also return for no reason.
    pub fn wait_for_news<W: Wait>(&self, rt: &W, seen: u32) {
        self.news.park(rt, seen);
    }

    /// The merger ended a round.
    pub fn round_ends(&self) {
        change(&self.rounds);
    }

    /// The merger is down, and whoever waits for it is woken.
    pub fn fall(&self) {
        self.is_up.store(0, Ordering::SeqCst);
        change(&self.rounds);
    }
}

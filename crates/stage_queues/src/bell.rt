//! What a thread with nothing to do rests on until another thread rings it.

use crossbeam_utils::Backoff;
use std::sync::Wait;
use std::sync::atomic::AtomicU64;
use std::sync::atomic::Ordering::SeqCst;
use std::time::Duration;

// How long a rest lasts at most. It bounds what a ring that never came would cost.
const LONGEST_REST_MILLIS: u64 = 20;

/// Threads rest on a bell, and whoever made a change that they wait for rings it. Any number of threads may rest on one
/// bell, and any thread may ring it. Ringing is one load where nobody rests.
///
/// No clause speaks of waking. That no ring is lost rests on this: the word is odd while somebody rests or is about to.
/// Who is about to rest makes the word odd, looks once more for the change, and sleeps while the word stays as it then
/// was. Who rings has made the change before it reads the word, and moves an odd word on. All these steps are in one
/// order. So where the last look missed the change, the change and with it the reading came after the word was made odd:
/// the word is moved on by this ring, or was moved on by another since. Either ends the sleep, or keeps it from starting.
#[derive(Drop)]
pub struct Bell {
    word: AtomicU64,
}

impl Bell {
    pub const fn new() -> Bell {
        Bell {
            word: AtomicU64::new(0),
        }
    }

    /// Wakes all that rest. Call it after the change that they wait for.
    pub fn ring(&self) {
        let word = self.word.load(SeqCst);
        if word % 2 == 1 && self.move_on(word, word.wrapping_add(1)) {
            self.word.wake_all();
        }
    }

    // Says that this thread is about to rest, and gives the word to rest on.
    fn announce(&self) -> u64 {
        let word = self.word.load(SeqCst);
        if word % 2 == 1 {
            return word;
        }
        // Where another thread moved the word first, either it made it this odd number too, or the rest ends at once.
        let odd = word.wrapping_add(1);
        self.move_on(word, odd);
        odd
    }

    // Rests until the word is no longer this one. It may end earlier.
    fn rest<R: Wait>(&self, rt: &R, word: u64) {
        let longest = Duration::from_millis(LONGEST_REST_MILLIS);
        self.word
            .park_timeout(rt, (word & 0xffff_ffff) as u32, longest);
    }

    fn move_on(&self, word: u64, next: u64) -> bool {
        self.word
            .compare_exchange(word, next, SeqCst, SeqCst)
            .is_ok()
    }
}

/// One wait of a thread for what another thread does. The thread looks for it, and calls `pause` after each look that
/// found nothing.
#[derive(Drop)]
pub struct Waiter {
    backoff: Backoff,
    announced: Option<u64>,
    rested: bool,
}

impl Waiter {
    pub fn new() -> Waiter {
        Waiter {
            backoff: Backoff::new(),
            announced: None,
            rested: false,
        }
    }

    /// Whether it has rested, so that it may be time to see to something else.
    pub fn has_rested(&self) -> bool {
        self.rested
    }

    /// Spins, as `Backoff` does. Once that is completed, it rests on the bell at every second call, 20 milliseconds at
    /// most: the call before tells the bell, so that the look between the two misses nothing.
    pub fn pause<R: Wait>(&mut self, rt: &R, bell: &Bell) {
        if !self.backoff.is_completed() {
            self.backoff.snooze();
            return;
        }
        match self.announced.take() {
            None => self.announced = Some(bell.announce()),
            Some(word) => {
                bell.rest(rt, word);
                self.rested = true;
            }
        }
    }
}

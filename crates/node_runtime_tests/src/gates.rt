use node_runtime::Gate;
use std::sync::atomic::{AtomicU64, Ordering};
use std::thread;

/// A worker is held before one of its turns until another comes to one of its own.
#[derive(Clone, Copy)]
pub struct Hold {
    pub worker: u32,
    pub turn: u64,
    pub until: u32,
    pub at: u64,
}

/// A gate that counts the calls of four workers, and holds some of them.
#[derive(Drop)]
pub struct Holding<'a> {
    calls: [AtomicU64; 4],
    // how many waits ended in vain
    in_vain: AtomicU64,
    holds: &'a [Hold],
}

impl<'a> Holding<'a> {
    pub fn new(holds: &'a [Hold]) -> Self {
        Holding {
            calls: [
                AtomicU64::new(0),
                AtomicU64::new(0),
                AtomicU64::new(0),
                AtomicU64::new(0),
            ],
            in_vain: AtomicU64::new(0),
            holds,
        }
    }

    /// How often a worker has called.
    pub fn calls(&self, worker: u32) -> u64 {
        match self.calls.get(worker as usize) {
            Some(calls) => calls.load(Ordering::SeqCst),
            None => 0,
        }
    }

    /// How many waits ended before the other worker came.
    pub fn in_vain(&self) -> u64 {
        self.in_vain.load(Ordering::SeqCst)
    }

    // Worker `until` calls at its turns 0, 1 and so on, once at each.
    fn wait(&self, hold: &Hold) {
        for _ in 0..100_000 {
            if self.calls(hold.until) > hold.at {
                return;
            }
            thread::yield_now();
        }
        self.in_vain.fetch_add(1, Ordering::SeqCst);
    }
}

impl<'a> Gate for Holding<'a> {
    fn at(&self, worker: u32, turn: u64) {
        if let Some(calls) = self.calls.get(worker as usize) {
            calls.fetch_add(1, Ordering::SeqCst);
        }
        for hold in self.holds {
            if hold.worker == worker && hold.turn == turn {
                self.wait(hold);
            }
        }
    }
}

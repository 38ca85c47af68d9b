//! How long a reply may take.
ghost use Rattle.std.specs.Prelude.{◌≡◌};
ghost use Rattle.peer_queues.specs.Replying.{is_late};

/// How many milliseconds a reply may take, from its first byte to its last.
const PATIENCE: u64 = 10_000;

/// How many it may take once another peer is ready, and how many another that is ready waits for it.
const PATIENCE_BESIDE: u64 = 2_000;

/// How many may pass without a byte of it, once another has waited for so long.
const LONGEST_PAUSE: u64 = 50;

/// A reply that is being written: from which moment on, and when bytes of it were last taken.
#[derive(Clone, Copy, Debug)]
pub struct Replying {
    begun: u64,
    moved: u64,
}

impl Replying {
    /// A reply that begins.
    pub fn new(now: u64) -> Replying
        ensures begun { result.begun ≡ now }
        ensures moved { result.moved ≡ now }
    {
        Replying {
            begun: now,
            moved: now,
        }
    }

    /// Bytes of it were taken.
    pub fn moves(&mut self, now: u64)
        ensures begun { self.new.begun ≡ self.old.begun }
        ensures moved { self.new.moved ≡ now }
    {
        self.moved = now;
    }

    /// Whether it has taken too long. `other` is the moment from which another peer is ready, if one
    /// is.
    pub fn is_late(&self, now: u64, other: Option<u64>) -> bool
        ensures { result ≡ is_late self.now.begun self.now.moved other now }
    {
        let taken = now.saturating_sub(self.begun);
        match other {
            None => taken >= PATIENCE,
            Some(since) => {
                taken >= PATIENCE_BESIDE
                    || (now.saturating_sub(since) >= PATIENCE_BESIDE
                        && now.saturating_sub(self.moved) >= LONGEST_PAUSE)
            }
        }
    }
}

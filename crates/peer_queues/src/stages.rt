//! How far a peer has come, and how long it may stay so.
ghost use Rattle.std.specs.Prelude.{◌≡◌, ◌==◌, not};
ghost use Rattle.peer_queues.specs.Stages.{has_overstayed, has_stayed, is_idle, is_leaving, is_new, is_over, is_ready, same_stage};

/// How many milliseconds a peer may say nothing, and how many its request may take from its first
/// byte to its last.
const PATIENCE: u64 = 10_000;

/// How many milliseconds a peer that is let go may go on sending.
const LAST_PATIENCE: u64 = 250;

/// How many milliseconds a peer has at least, where another wants its place.
const SHORTEST_STAY: u64 = 20;

/// How far a peer has come.
#[derive(Clone, Copy, Debug)]
pub enum Stage {
    /// It has sent nothing since it came.
    Silent,
    /// It has sent nothing since the last reply to it.
    Idle,
    /// It has sent a part of a request.
    Begun,
    /// A request of it is whole, or what it sent is refused, or its bytes have ended.
    Ready,
    /// It is let go: what it still sends is thrown away.
    Leaving,
}

impl Stage {
    /// Whether it is this stage.
    pub fn is(self, other: Stage) -> bool
        ensures { result ≡ same_stage self other }
    {
        match (self, other) {
            (Stage::Silent, Stage::Silent)
            | (Stage::Idle, Stage::Idle)
            | (Stage::Begun, Stage::Begun)
            | (Stage::Ready, Stage::Ready)
            | (Stage::Leaving, Stage::Leaving) => true,
            _ => false,
        }
    }

    /// Whether a peer has been in this stage for too long, after so many milliseconds in it. One that
    /// is ready waits for the office.
    fn has_overstayed(self, waited: u64) -> bool
        ensures { result ≡ has_overstayed self waited }
    {
        match self {
            Stage::Silent | Stage::Idle | Stage::Begun => waited >= PATIENCE,
            Stage::Ready => false,
            Stage::Leaving => waited >= LAST_PATIENCE,
        }
    }
}

/// A peer that waits in its place: how far it has come, and since which moment.
#[derive(Clone, Copy, Debug)]
pub struct Peer {
    /// The number of its place.
    pub place: usize,
    /// How far it has come.
    pub stage: Stage,
    /// The moment from which it has come so far.
    pub since: u64,
}

impl Peer {
    /// Whether the office is to have it.
    pub fn is_ready(&self) -> bool
        ensures { result ≡ is_ready self.now }
    {
        self.stage.is(Stage::Ready)
    }

    /// Whether it is let go.
    pub(crate) fn is_leaving(&self) -> bool
        ensures { result ≡ is_leaving self.now }
    {
        self.stage.is(Stage::Leaving)
    }

    /// Whether it is another than that of a place.
    pub(crate) fn is_elsewhere(&self, place: usize) -> bool
        ensures { result ≡ not (self.now.place == place) }
    {
        self.place != place
    }

    /// Whether its time is over.
    pub(crate) fn is_over(&self, now: u64) -> bool
        ensures { result ≡ is_over now self.now }
    {
        self.stage.has_overstayed(now.saturating_sub(self.since))
    }

    /// Whether it has had no reply, and nothing of it is ready.
    pub(crate) fn is_new(&self) -> bool
        ensures { result ≡ is_new self.now }
    {
        !self.is_ready() && !self.is_idle()
    }

    /// Whether it has sent nothing since its last reply.
    pub(crate) fn is_idle(&self) -> bool
        ensures { result ≡ is_idle self.now }
    {
        self.stage.is(Stage::Idle)
    }

    /// Whether it had its chance.
    pub(crate) fn has_stayed(&self, now: u64) -> bool
        ensures { result ≡ has_stayed now self.now }
    {
        now.saturating_sub(self.since) >= SHORTEST_STAY
    }
}

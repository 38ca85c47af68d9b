//! Laws of the peers that wait.
ghost use Rattle.std.specs.Prelude.{◌≡◌, ◌==◌, ℕ, false, List, Some, find};
ghost use Rattle.peer_queues.specs.Queues.{noted, without};
ghost use Rattle.peer_queues.specs.Stages.{is_ready};
ghost use Rattle.peer_queues.specs.declared.stages.Peer.{Peer};
ghost use Rattle.peer_queues.specs.declared.stages.Stage.{Stage};

/// Whoever is to be had next stays so, whatever another peer does: none overtakes it by coming
/// further, by beginning again or by going.
pub fn next_stays_next()
    ensures noted { (peers : List Peer) (next : Peer) (place now : ℕ) (stage : Stage) → find is_ready peers ≡ Some next
        → (next.place == place) ≡ false → find is_ready (noted place stage now peers) ≡ Some next }
    ensures gone { (peers : List Peer) (next : Peer) (place : ℕ) → find is_ready peers ≡ Some next
        → (next.place == place) ≡ false → find is_ready (without place peers) ≡ Some next }
{}

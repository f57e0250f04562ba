// The law of links.
ghost use Rattle.std.specs.Prelude.{◌≡◌, ◌++◌, ℕ};
ghost use Rattle.mage_network.specs.Pasts.{IsPrefix};
ghost use Rattle.mage_link.specs.Queues.{QueueState, queue_told, lies_in};

/// What was sent on a link is what was received from it, and then what lies in it; so what was
/// received begins what was sent.
pub fn wires_are_kept()
    ensures kept { (queues : QueueState) (source target : ℕ)
        → (queue_told queues).sent source target
        ≡ (queue_told queues).received source target ++ lies_in queues source target }
    ensures prefix { (queues : QueueState) (source target : ℕ)
        → IsPrefix ((queue_told queues).received source target)
        ((queue_told queues).sent source target) }
{}

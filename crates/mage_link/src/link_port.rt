// What a machine asks for links.
ghost use Rattle.mage_link.specs.Links.{LinkTold, CanUse, Sends, Receives};

use crate::{Full, Wire16};

/// Links between workers, which are counted from 0: one for each ordered pair. A link carries wires
/// in order. Each call names two workers that differ, of whom `me` is one that this port serves.
pub trait LinkPort {
    ghost tells: { Self → LinkTold };

    /// Sends a wire to another worker. With `Full` there was no room and nothing was sent.
    fn try_send(&mut self, me: u16, to: u16, wire: Wire16) -> Result<(), Full>
        requires { CanUse (tells self.old) me to }
        ensures { Sends (tells self.old) (tells self.new) me to wire.bytes result };

    /// Receives the next wire that another worker sent. With `None` there was none.
    fn try_recv(&mut self, me: u16, from: u16) -> Option<Wire16>
        requires { CanUse (tells self.old) me from }
        ensures { Receives (tells self.old) (tells self.new) me from result };
}

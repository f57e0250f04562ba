// The outside of a command.
ghost use Rattle.std.specs.Prelude.{◌≡◌, ◌≤◌, ◌+◌, length, Contains, IsTrue, IsSome, IfSome, IfOk, IsOk, OnOk};
ghost use Rattle.mage_base.specs.Desk.{DeskTold, Fetched, Finds, FaultCounted, IsNoFault, IsNotTooLong, HandsSource, HandsSink, OpensOut, ClosesOut, HandsStore, Lends, after_giving};
ghost use Rattle.mage_base.specs.Faults.{Counted, count_after};
ghost use Rattle.mage_base.specs.Sink.{Puts};

use crate::{DeskError, Failed, Sink, Source, Store};
use std::alloc::Global;

/// Where a command gets its files, keeps its pages and leaves its answer. What a desk holds is told or not told: a desk
/// over real files tells nothing, since no contract can say what these hold.
///
/// Counts are kept in 64 bits and stay at their greatest value. A fault is answered only where the count of faults rose,
/// or stands there.
pub trait Desk {
    type Input: Source + Send + Drop;

    type Output: Sink + Send + Drop;

    type Pages: Store + Send + Drop;

    ghost tells: { Self → DeskTold };

    /// The bytes of the file with this name, of which there are at most `limit`.
    ///
    /// `TooLong` where the file is longer, `Fault` where there is no such file or the desk failed, and `Memory`
    /// where there is none for the bytes.
    fn fetch(&mut self, alloc: Global, name: &str, limit: u64) -> Result<Vec<u8>, DeskError>
        ensures found { IfSome (tells self.old).files (λ files.
            Fetched (files name.now) limit result) }
        ensures within { IfOk result (λ bytes. length bytes.items ≤ limit) }
        ensures cause { FaultCounted (tells self.old).faults (tells self.new).faults result }
        ensures steady { Finds (tells self.old) name.now result }
        ensures rest { tells self.new
            ≡ record (tells self.old) { faults = (tells self.new).faults } };

    /// The file with this name, to be read piece by piece. `Fault` where there is no such file or the desk failed.
    fn open_in(&mut self, alloc: Global, name: &str) -> Result<Self::Input, DeskError>
        ensures source { IfOk result (λ source.
            HandsSource (tells self.old) name.now (Self.Input.tells source)) }
        ensures short { IsNotTooLong result }
        ensures cause { FaultCounted (tells self.old).faults (tells self.new).faults result }
        ensures steady { Finds (tells self.old) name.now result }
        ensures rest { tells self.new
            ≡ record (tells self.old) { faults = (tells self.new).faults } };

    /// Takes a source back. Its faults are counted: the count never falls, and stays where the source has none.
    fn close_in(&mut self, name: &str, source: Self::Input)
        ensures counted { tells self.new ≡ record (tells self.old) {
          faults = count_after (tells self.old).faults (Self.Input.tells source).faults;
        } }
        ensures rises { (tells self.old).faults ≤ (tells self.new).faults }
        ensures quiet { (Self.Input.tells source).faults ≡ 0
            → (tells self.new).faults ≡ (tells self.old).faults };

    /// Makes the file with this name empty, to be written with at most `room` bytes. With any answer but Ok no file
    /// changed.
    fn open_out(&mut self, alloc: Global, name: &str, room: u64) -> Result<Self::Output, DeskError>
        ensures sink { IfOk result (λ sink.
            HandsSink (tells self.old) room (Self.Output.tells sink)) }
        ensures short { IsNotTooLong result }
        ensures cause { FaultCounted (tells self.old).faults (tells self.new).faults result }
        ensures steady { IsTrue (tells self.old).steady → IsNoFault result }
        ensures rest { OpensOut (tells self.old) (tells self.new) name.now result };

    /// Takes a sink back: the file is what it took, or after `Failed` a front of that. Its faults are counted: the count never
    /// falls, and stays where the sink has none and closing doesn't fail.
    fn close_out(&mut self, name: &str, sink: Self::Output) -> Result<(), Failed>
        requires { IfSome (tells self.old).files (λ files. IsSome (files name.now)) }
        ensures closed { ClosesOut (tells self.old) (tells self.new) name.now
            (Self.Output.tells sink) result }
        ensures rises { (tells self.old).faults ≤ (tells self.new).faults }
        ensures quiet { (Self.Output.tells sink).faults ≡ 0
            → OnOk result ((tells self.new).faults ≡ (tells self.old).faults) }
        ensures steady { IsTrue (tells self.old).steady → IsOk result };

    /// A store for a shard of a worker, with pages of `page_bytes` bytes each, to which nothing was written yet. On a
    /// steady desk it has `pages` of them.
    fn store(
        &mut self,
        alloc: Global,
        worker: u16,
        shard: u16,
        pages: u32,
        page_bytes: u32,
    ) -> Result<Self::Pages, DeskError>
        ensures store { IfOk result (λ store.
            HandsStore (tells self.old) pages page_bytes (Self.Pages.tells store)) }
        ensures short { IsNotTooLong result }
        ensures cause { FaultCounted (tells self.old).faults (tells self.new).faults result }
        ensures steady { IsTrue (tells self.old).steady → IsNoFault result }
        ensures rest { Lends (tells self.old) (tells self.new)
            (record { worker = worker; shard = shard }) result };

    /// Takes a store back. Its counts, and where told its log, are added to those of its worker.
    fn give_store(&mut self, worker: u16, shard: u16, store: Self::Pages)
        requires { Contains (tells self.old).lent (record { worker = worker; shard = shard }) }
        ensures { tells self.new
            ≡ after_giving (tells self.old) (record { worker = worker; shard = shard })
            (Self.Pages.tells store) };

    /// Says the bytes. After `Failed` some front of them is said.
    fn say(&mut self, bytes: &[u8]) -> Result<(), Failed>
        ensures said { Puts result (tells self.old).said bytes.now (tells self.new).said }
        ensures cause { Counted (tells self.old).faults (tells self.new).faults result }
        ensures steady { IsTrue (tells self.old).steady
            → length bytes.now ≤ (tells self.old).room → IsOk result }
        ensures room { IsTrue (tells self.old).steady
            → OnOk result ((tells self.new).room + length bytes.now ≡ (tells self.old).room) }
        ensures rest { tells self.new ≡ record (tells self.old) {
          said = (tells self.new).said;
          faults = (tells self.new).faults;
          room = (tells self.new).room;
        } };

    /// Tells the user what went wrong, apart from what is said. After `Failed` some front of the bytes is warned.
    fn warn(&mut self, bytes: &[u8]) -> Result<(), Failed>
        ensures warned { Puts result (tells self.old).warned bytes.now (tells self.new).warned }
        ensures cause { Counted (tells self.old).faults (tells self.new).faults result }
        ensures steady { IsTrue (tells self.old).steady
            → length bytes.now ≤ (tells self.old).warn_room → IsOk result }
        ensures room { IsTrue (tells self.old).steady
            → OnOk result
            ((tells self.new).warn_room + length bytes.now ≡ (tells self.old).warn_room) }
        ensures rest { tells self.new ≡ record (tells self.old) {
          warned = (tells self.new).warned;
          faults = (tells self.new).faults;
          warn_room = (tells self.new).warn_room;
        } };
}

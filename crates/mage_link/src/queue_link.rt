// All links between workers, on one thread.
ghost use Rattle.std.specs.Prelude.{◌≡◌, ◌≤◌, ◌<◌, ◌↔◌, [], length, replicate, IfOk, IsErr, IsNone};
ghost use Rattle.mage_instr.specs.Opcodes.{most_workers};
ghost use Rattle.mage_link.specs.Links.{CanUse, IsUnused, Sends, Receives};
ghost use Rattle.mage_link.specs.Queues.{new_queues, queue_told, lies_in, HasPlace, Appends, TakesFirst};
ghost use Rattle.mage_link.specs.Rows.{rows_of, new_link, link_in, HasLink, Pushes, Pops};

use crate::link::Link;
use crate::{Full, LinkPort, Wire16};
use circular_buffer::HeapCircularBuffer;
use mage_base::Memory;
use mage_history::WireHistory;
use std::alloc::Global;
use std::marker::Model;

/// The links between some workers, all on one thread: each is a queue with room for so many wires.
#[derive(Drop)]
pub struct QueueLink {
    workers: u16,
    capacity: u16,
    links: Vec<Vec<Link>>,
    waits: u64,
}

impl Model for QueueLink {
    ghost use Rattle.mage_link.specs.Queues.{QueueState};
    ghost use Rattle.mage_link.specs.Rows.{rows_of, queues_of, AreLinks};

    ghost Value = { QueueState };

    ghost view = { λ queues. queues_of queues.workers queues.capacity (rows_of queues.links)
        queues.waits };

    ghost invariant = { λ queues. AreLinks queues.workers queues.capacity
        (rows_of queues.links) };
}

impl QueueLink {
    /// Empty links from each of 1 to 16 workers to each, with room for so many wires each. All of
    /// the room is taken here.
    pub fn make(alloc: Global, workers: u16, capacity: u16) -> Result<QueueLink, Memory>
        requires workers { (1 ≤ workers) × (workers ≤ most_workers) }
        requires capacity { 1 ≤ capacity }
        ensures queues { IfOk result (λ queues. queues ≡ new_queues workers capacity) }
        ensures unused { IfOk result (λ queues. IsUnused (queue_told queues)) }
    {
        let mut links = Vec::with_capacity(alloc, workers as usize)?;
        for _ in 0..workers {
            links.push(new_row(alloc, workers, capacity)?)?;
        }
        Ok(QueueLink {
            workers,
            capacity,
            links,
            waits: 0,
        })
    }

    /// How many workers there are.
    pub fn workers(&self) -> u16
        ensures { result ≡ self.now.workers }
    {
        self.workers
    }

    /// How many wires a link holds at most.
    pub fn capacity(&self) -> u16
        ensures { result ≡ self.now.capacity }
    {
        self.capacity
    }

    /// How many wires lie in the link from one worker to another.
    pub fn lying(&self, source: u16, target: u16) -> usize
        requires source { source < self.now.workers }
        requires target { target < self.now.workers }
        ensures count { result ≡ length (lies_in self.now source target) }
        ensures within { length (lies_in self.now source target) ≤ self.now.capacity }
        ensures there { HasPlace self.now.links source target }
    {
        lying_in(&self.links, source as usize, target as usize)
    }

    /// How often an answer was `Full` or `None`. The count stays at its greatest value.
    pub fn waits(&self) -> u64
        ensures { result ≡ self.now.waits }
    {
        self.waits
    }
}

// The links of one worker to each.
fn new_row(alloc: Global, workers: u16, capacity: u16) -> Result<Vec<Link>, Memory>
    ensures { IfOk result (λ row. row.items ≡ replicate workers (new_link capacity)) }
{
    let mut row = Vec::with_capacity(alloc, workers as usize)?;
    for _ in 0..workers {
        row.push(Link {
            queue: HeapCircularBuffer::with_capacity(alloc, capacity as usize)?,
            received: WireHistory::new(),
        })?;
    }
    Ok(row)
}

// Puts a wire at the end of a link, where there is room.
fn push(links: &mut Vec<Vec<Link>>, me: usize, to: usize, wire: Wire16) -> Result<(), Full>
    requires { HasLink (rows_of links.old) me to }
    ensures pushed { Pushes (rows_of links.old) (rows_of links.new) me to wire result }
    ensures full { IsErr result ↔ ((link_in (rows_of links.old) me to).queue.capacity
        ≤ length (link_in (rows_of links.old) me to).queue.items) }
{
    let link = &mut links[me][to];
    match link.queue.try_push_back(wire) {
        Ok(()) => Ok(()),
        Err(_) => Err(Full),
    }
}

// How many wires lie in a link.
fn lying_in(links: &Vec<Vec<Link>>, source: usize, target: usize) -> usize
    requires { HasLink (rows_of links.now) source target }
    ensures { result ≡ length (link_in (rows_of links.now) source target).queue.items }
{
    let link = &links[source][target];
    link.queue.len()
}

// Takes the first wire of a link.
fn pop(links: &mut Vec<Vec<Link>>, me: usize, from: usize) -> Option<Wire16>
    requires { HasLink (rows_of links.old) from me }
    ensures { Pops (rows_of links.old) (rows_of links.new) from me result }
{
    let link = &mut links[from][me];
    match link.queue.pop_front() {
        Some(wire) => {
            link.received.note(&wire.bytes);
            Some(wire)
        }
        None => None,
    }
}

impl LinkPort for QueueLink {
    ghost tells = { queue_told };

    /// `Full` comes exactly where the link holds as many wires as it has room for.
    fn try_send(&mut self, me: u16, to: u16, wire: Wire16) -> Result<(), Full>
        requires { CanUse (queue_told self.old) me to }
        ensures sends { Sends (queue_told self.old) (queue_told self.new) me to wire.bytes result }

        ensures appends { Appends self.old self.new me to wire.bytes result }
        ensures full { IsErr result ↔ (length (lies_in self.old me to) ≡ self.old.capacity) }
    {
        match push(&mut self.links, me as usize, to as usize, wire) {
            Ok(()) => Ok(()),
            Err(Full) => {
                self.waits = self.waits.saturating_add(1);
                Err(Full)
            }
        }
    }

    /// `None` comes exactly where the link is empty.
    fn try_recv(&mut self, me: u16, from: u16) -> Option<Wire16>
        requires { CanUse (queue_told self.old) me from }
        ensures receives { Receives (queue_told self.old) (queue_told self.new) me from result }

        ensures first { TakesFirst self.old self.new me from result }
        ensures empty { IsNone result ↔ (lies_in self.old from me ≡ []) }
    {
        match pop(&mut self.links, me as usize, from as usize) {
            Some(wire) => Some(wire),
            None => {
                self.waits = self.waits.saturating_add(1);
                None
            }
        }
    }
}

// Rows of calls. The expected answers are worked out by hand, of links that are first in, first
// out and hold so many wires.
ghost use Rattle.std.specs.Prelude.{IfOk, ◌≤◌};
ghost use Rattle.mage_instr.specs.Opcodes.{most_workers};
ghost use Rattle.mage_link.specs.Links.{ServesAll};
ghost use Rattle.mage_link.specs.Queues.{queue_told};

use crate::{Full, LinkPort, QueueLink, Wire16};
use mage_base::Memory;
use std::alloc::Global;
use std::test::Fail;

fn wire(number: u8) -> Wire16 {
    let mut bytes = [0xa5; 16];
    bytes[0] = number;
    bytes[15] = !number;
    Wire16 { bytes }
}

fn links(alloc: Global, workers: u16, capacity: u16) -> Result<QueueLink, Memory>
    requires workers { (1 ≤ workers) × (workers ≤ most_workers) }
    requires capacity { 1 ≤ capacity }
    ensures { IfOk result (λ port. ServesAll (queue_told port) workers) }
{
    QueueLink::make(alloc, workers, capacity)
}

// Whether a wire was sent, through any port.
fn sent<P: LinkPort>(port: &mut P, workers: u16, me: u16, to: u16, number: u8) -> bool
    requires { ServesAll (P.tells port.old) workers }
    ensures { ServesAll (P.tells port.new) workers }
{
    if me == to || me >= workers || to >= workers {
        return false;
    }
    match port.try_send(me, to, wire(number)) {
        Ok(()) => true,
        Err(Full) => false,
    }
}

// The wire that was received, through any port.
fn received<P: LinkPort>(port: &mut P, workers: u16, me: u16, from: u16) -> Option<Wire16>
    requires { ServesAll (P.tells port.old) workers }
    ensures { ServesAll (P.tells port.new) workers }
{
    if me == from || me >= workers || from >= workers {
        return None;
    }
    match port.try_recv(me, from) {
        Some(wire) => Some(wire),
        None => None,
    }
}

#[test]
fn a_link_keeps_the_order_and_has_just_its_room(rt: HostRuntime) -> Result<(), Fail> {
    let mut port = links(rt.alloc(), 2, 2)?;
    assert_eq!(rt; received(&mut port, 2, 1, 0), None);
    assert!(rt; sent(&mut port, 2, 0, 1, 1));
    assert!(rt; sent(&mut port, 2, 0, 1, 2));
    assert!(rt; !sent(&mut port, 2, 0, 1, 3));
    assert_eq!(rt; received(&mut port, 2, 1, 0), Some(wire(1)));
    assert!(rt; sent(&mut port, 2, 0, 1, 4));
    assert_eq!(rt; received(&mut port, 2, 1, 0), Some(wire(2)));
    assert_eq!(rt; received(&mut port, 2, 1, 0), Some(wire(4)));
    assert_eq!(rt; received(&mut port, 2, 1, 0), None);
    assert_eq!(rt; port.waits(), 3);
    Ok(())
}

#[test]
fn a_call_leaves_the_other_links(rt: HostRuntime) -> Result<(), Fail> {
    let mut port = links(rt.alloc(), 3, 1)?;
    assert!(rt; sent(&mut port, 3, 0, 1, 1));
    assert!(rt; sent(&mut port, 3, 1, 0, 2));
    assert!(rt; sent(&mut port, 3, 2, 1, 3));
    assert!(rt; !sent(&mut port, 3, 0, 1, 4));
    assert_eq!(rt; received(&mut port, 3, 2, 1), None);
    assert_eq!(rt; received(&mut port, 3, 1, 2), Some(wire(3)));
    assert_eq!(rt; received(&mut port, 3, 0, 1), Some(wire(2)));
    assert_eq!(rt; received(&mut port, 3, 1, 0), Some(wire(1)));
    assert_eq!(rt; port.waits(), 2);
    Ok(())
}

// Sends the wire of number `16 * me + to` to each other worker. How many were sent.
fn sent_to_each<P: LinkPort>(port: &mut P, me: u8) -> u16
    requires { ServesAll (P.tells port.old) 16 }
    ensures { ServesAll (P.tells port.new) 16 }
{
    let mut count: u16 = 0;
    for to in 0..16 {
        let number = me.wrapping_mul(16).wrapping_add(to);
        if sent(port, 16, u16::from(me), u16::from(to), number) {
            count = count.saturating_add(1);
        }
    }
    count
}

// Receives a wire from each other worker. How many were those that it sent by the rule above.
fn received_from_each<P: LinkPort>(port: &mut P, me: u8) -> u16
    requires { ServesAll (P.tells port.old) 16 }
    ensures { ServesAll (P.tells port.new) 16 }
{
    let mut count: u16 = 0;
    for from in 0..16 {
        let number = u8::wrapping_mul(from, 16).wrapping_add(me);
        if received(port, 16, u16::from(me), u16::from(from)) == Some(wire(number)) {
            count = count.saturating_add(1);
        }
    }
    count
}

// Each of 16 workers sends to each other one. How many wires were sent.
fn all_sent<P: LinkPort>(port: &mut P) -> u16
    requires { ServesAll (P.tells port.old) 16 }
    ensures { ServesAll (P.tells port.new) 16 }
{
    let mut count: u16 = 0;
    for me in 0..16 {
        count = count.saturating_add(sent_to_each(port, me));
    }
    count
}

// Each of 16 workers receives from each other one. How many of the wires above came.
fn all_received<P: LinkPort>(port: &mut P) -> u16
    requires { ServesAll (P.tells port.old) 16 }
    ensures { ServesAll (P.tells port.new) 16 }
{
    let mut count: u16 = 0;
    for me in 0..16 {
        count = count.saturating_add(received_from_each(port, me));
    }
    count
}

#[test]
fn each_of_sixteen_workers_has_a_link_to_each_other_one(rt: HostRuntime) -> Result<(), Fail> {
    let mut port = links(rt.alloc(), 16, 1)?;
    assert_eq!(rt; all_sent(&mut port), 240);
    assert_eq!(rt; port.waits(), 0);
    assert_eq!(rt; all_sent(&mut port), 0);
    assert_eq!(rt; port.waits(), 240);
    assert_eq!(rt; all_received(&mut port), 240);
    assert_eq!(rt; all_received(&mut port), 0);
    assert_eq!(rt; port.waits(), 480);
    Ok(())
}

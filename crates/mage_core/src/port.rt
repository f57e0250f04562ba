// The port of one worker: a sealed port over a serial port over its store.
ghost use Rattle.std.specs.Prelude.{◌≡◌, ◌++◌, IfOk, IfErr, OnOk};
ghost use Rattle.std.specs.Option.{option_to_list};
ghost use Rattle.mage_engine.specs.Ready.{page_moved, Takes};
ghost use Rattle.mage_store.specs.SerialPort.{new_serial};
ghost use Rattle.mage_store.specs.SerialPort as serial;
ghost use Rattle.mage_core.specs.Ports.{port_tells, pages_moved};

use mage_base::{Memory, Store};
use mage_instr::Directive;
use mage_store::{SealedPort, SerialPort};
use mage_verify::Part;
use std::alloc::Global;

// The page that a directive moves.
fn page_of(directive: Directive) -> Option<u32>
    ensures { result ≡ page_moved directive }
{
    match directive {
        Directive::IssueIn { slot: _, page } => Some(page),
        Directive::IssueOut {
            slot: _,
            frame: _,
            page,
        } => Some(page),
        _ => None,
    }
}

// Adds the page that a directive moves.
fn note(pages: &mut Vec<u32>, directive: Directive) -> Result<(), Memory>
    ensures { OnOk result
        (pages.new.items ≡ pages.old.items ++ option_to_list (page_moved directive)) }
{
    match page_of(directive) {
        Some(page) => {
            pages.push(page)?;
            Ok(())
        }
        None => Ok(()),
    }
}

// The pages that some directives move. Each is one that they write, since only a page that was written is read.
fn pages_of(alloc: Global, directives: &[Directive]) -> Result<Vec<u32>, Memory>
    ensures { IfOk result (λ pages. pages.items ≡ pages_moved directives.now) }
{
    let mut pages = Vec::new(alloc);
    for directive in directives {
        note(&mut pages, *directive)?;
    }
    Ok(pages)
}

// The port of a part over its store, with room for all of its transfers. With `Memory` the store comes back.
pub(crate) fn port_for<S: Store>(
    alloc: Global,
    part: &Part,
    page_bytes: u32,
    store: S,
) -> Result<SealedPort<SerialPort<S>>, S>
    requires { page_bytes ≡ (S.tells store).page_bytes }
    ensures over { IfOk result (λ sealed.
        sealed.port ≡ new_serial store part.now.limits.buffer page_bytes) }
    ensures told { IfOk result (λ sealed. port_tells S.tells sealed
        ≡ record (serial.port_told S.tells sealed.port) { takes = (port_tells S.tells sealed).takes }) }
    ensures takes { IfOk result (λ sealed. Takes (port_tells S.tells sealed).takes part.now) }
    ensures back { IfErr result (λ back. back ≡ store) }
{
    let Ok(pages) = pages_of(alloc, part.directives()) else {
        return Err(store);
    };
    match SerialPort::make(alloc, part.limits().buffer, page_bytes, store) {
        Ok(port) => match SealedPort::make(alloc, pages.as_slice(), port) {
            Ok(sealed) => Ok(sealed),
            Err((port, _)) => Err(port.close()),
        },
        Err((store, _)) => Err(store),
    }
}

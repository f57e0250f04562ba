// A page that is written through any port, and read back.
ghost use Rattle.std.specs.Prelude.{◌≡◌, length, IsTrue, OnOk, IfErr};
ghost use Rattle.mage_port.specs.Port.{CanRead};
ghost use Rattle.mage_store_tests.specs.Rest.{IsAtRest, StaysAtRest, IsNotBack, Comes};

use mage_port::{PortWait, Ready, SwapPort};

/// How a page came back. Where a transfer wasn't done: why not, and what is answered when the port
/// is asked again.
#[derive(Clone, Copy, Debug, PartialEq, Eq)]
pub enum Went {
    Back,
    NotWritten(PortWait, Result<Ready, PortWait>),
    NotRead(PortWait, Result<Ready, PortWait>),
}

/// Writes a page through the first slot of a port, and reads it back. The buffer `from` is given
/// away for another one, and `into` is exchanged for that of the page.
pub fn written_and_read<P: SwapPort>(
    port: &mut P,
    page: u32,
    from: &mut Vec<u8>,
    into: &mut Vec<u8>,
) -> Went
    requires rest { IsAtRest (P.tells port.old) }
    requires taken { IsTrue ((P.tells port.old).takes page) }
    requires whole { length from.old.items ≡ (P.tells port.old).page_bytes }
    requires room { length into.old.items ≡ (P.tells port.old).page_bytes }
    ensures rest { Comes (P.tells port.old) (P.tells port.new) result }
    ensures whole { length from.new.items ≡ (P.tells port.old).page_bytes }
    ensures room { length into.new.items ≡ (P.tells port.old).page_bytes }
{
    match written(port, page, from, into) {
        Err(went) => went,
        Ok(()) => match read_back(port, page, into) {
            Err(went) => went,
            Ok(()) => Went::Back,
        },
    }
}

// Writes the page.
fn written<P: SwapPort>(
    port: &mut P,
    page: u32,
    from: &mut Vec<u8>,
    into: &mut Vec<u8>,
) -> Result<(), Went>
    requires rest { IsAtRest (P.tells port.old) }
    requires taken { IsTrue ((P.tells port.old).takes page) }
    requires whole { length from.old.items ≡ (P.tells port.old).page_bytes }
    requires room { length into.old.items ≡ (P.tells port.old).page_bytes }
    ensures rest { OnOk result (StaysAtRest (P.tells port.old) (P.tells port.new)) }
    ensures held { OnOk result (CanRead (P.tells port.new) 0 page) }
    ensures err { IfErr result IsNotBack }
    ensures whole { length from.new.items ≡ (P.tells port.old).page_bytes }
    ensures room { length into.new.items ≡ (P.tells port.old).page_bytes }
{
    port.give_write(0, page, from);
    match port.try_finish(0, into.as_mut_slice()) {
        Ok(_) => Ok(()),
        Err(wait) => Err(Went::NotWritten(wait, port.try_finish(0, into.as_mut_slice()))),
    }
}

// Reads the page.
fn read_back<P: SwapPort>(port: &mut P, page: u32, into: &mut Vec<u8>) -> Result<(), Went>
    requires rest { IsAtRest (P.tells port.old) }
    requires held { CanRead (P.tells port.old) 0 page }
    requires room { length into.old.items ≡ (P.tells port.old).page_bytes }
    ensures rest { OnOk result (StaysAtRest (P.tells port.old) (P.tells port.new)) }
    ensures err { IfErr result IsNotBack }
    ensures room { length into.new.items ≡ (P.tells port.old).page_bytes }
{
    port.ask_read(0, page);
    match port.try_take(0, into) {
        Ok(_) => Ok(()),
        Err(wait) => Err(Went::NotRead(wait, port.try_take(0, into))),
    }
}

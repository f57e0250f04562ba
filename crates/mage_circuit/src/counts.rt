// How many bits are 1.
ghost use Rattle.std.specs.Prelude.{◌≡◌, ◌≤◌, ◌-◌, length, take, IfOk};
ghost use Rattle.mage_instr.specs.Opcodes.{greatest_width};
ghost use Rattle.mage_driver.specs.declared.standing.Standing.TheVariants as standing;
ghost use Rattle.mage_driver.specs.Circuits.{Leaves, folded, followed, formed};
ghost use Rattle.mage_driver.specs.Operations.{count_up, counted, resized, starting};
ghost use Rattle.mage_circuit.specs.Numbers.{grown, increased, bits_of};

use crate::gates::both_of;
use crate::moves::clear;
use mage_driver::Driver;
use mage_instr::DriverFault;

// How many bits are 1, with zeros above that number.
pub fn count<D: Driver>(
    driver: &mut D,
    a: &[D::Wire],
    out: &mut [D::Wire],
) -> Result<(), DriverFault>
    requires running { (D.tells driver.old).standing ≡ standing.Running }
    requires some { 1 ≤ length a.now }
    requires few { length a.now ≤ greatest_width }
    requires room { length out.old ≡ length a.now }
    ensures { Leaves D.rules (followed D.rules (counted D.rules a.now)
        (λ all. resized D.rules (length a.now) all.bits))
        (D.tells driver.old) (D.tells driver.new) (λ _. out.new) result }
{
    let count = count_bits(driver, a, out)?;
    clear(driver, &mut out[count..]);
    Ok(())
}

// How many bits are 1, in the lowest wires of `number`; how many these are is answered.
fn count_bits<D: Driver>(
    driver: &mut D,
    a: &[D::Wire],
    number: &mut [D::Wire],
) -> Result<usize, DriverFault>
    requires running { (D.tells driver.old).standing ≡ standing.Running }
    requires some { 1 ≤ length a.now }
    requires few { length a.now ≤ greatest_width }
    requires room { length number.old ≡ length a.now }
    ensures circuit { Leaves D.rules (formed D.rules bits_of (counted D.rules a.now))
        (D.tells driver.old) (D.tells driver.new) (λ count. take count number.new) result }
    ensures within { IfOk result (λ count. count ≤ length a.now) }
{
    number[0] = a[0];
    let mut length = 1;
    let mut full = 2;
    for i in 1..a.len() {
        if i + 1 == full {
            count_full(driver, a[i], &mut number[..length + 1])?;
            length += 1;
            full *= 2;
        } else {
            count_more(driver, a[i], &mut number[..length])?;
        }
    }
    Ok(length)
}

// Adds a bit to a number, in its place, which may then take the wire above it.
fn count_full<D: Driver>(
    driver: &mut D,
    bit: D::Wire,
    number: &mut [D::Wire],
) -> Result<(), DriverFault>
    requires running { (D.tells driver.old).standing ≡ standing.Running }
    requires some { 1 ≤ length number.old }
    ensures { Leaves D.rules (grown D.rules bit (take (length number.old - 1) number.old))
        (D.tells driver.old) (D.tells driver.new) (λ _. number.new) result }
{
    let last = number.len() - 1;
    let carry = count_up(driver, bit, &mut number[..last])?;
    number[last] = carry;
    Ok(())
}

// Adds a bit to a number, in its place, where that leaves no carry.
fn count_more<D: Driver>(
    driver: &mut D,
    bit: D::Wire,
    number: &mut [D::Wire],
) -> Result<(), DriverFault>
    requires running { (D.tells driver.old).standing ≡ standing.Running }
    requires some { 1 ≤ length number.old }
    ensures { Leaves D.rules (increased D.rules bit number.old)
        (D.tells driver.old) (D.tells driver.new) (λ _. number.new) result }
{
    let last = number.len() - 1;
    let carry = count_up(driver, bit, &mut number[..last])?;
    number[last] = driver.xor(number[last], carry);
    Ok(())
}

// Adds a bit to a number, in its place, and gives the carry of its last bit.
fn count_up<D: Driver>(
    driver: &mut D,
    bit: D::Wire,
    number: &mut [D::Wire],
) -> Result<D::Wire, DriverFault>
    requires running { (D.tells driver.old).standing ≡ standing.Running }
    ensures { Leaves D.rules (folded D.rules (count_up D.rules) (starting D.rules bit) number.old)
        (D.tells driver.old) (D.tells driver.new)
        (λ carry. record { carry = carry; bits = number.new }) result }
{
    let mut carry = bit;
    for i in 0..number.len() {
        let place = number[i];
        number[i] = driver.xor(place, carry);
        let next = both_of(driver, place, carry)?;
        carry = next;
    }
    Ok(carry)
}

// Quotients, and what division leaves.
ghost use Rattle.std.specs.Prelude.{◌≡◌, ◌≤◌, ◌+◌, ◌*◌, ◌∷◌, List, length};
ghost use Rattle.mage_driver.specs.declared.standing.Standing.TheVariants as standing;
ghost use Rattle.mage_driver.specs.Circuits.{Leaves, formed};
ghost use Rattle.mage_driver.specs.Operations.{divided, taken_away};
ghost use Rattle.mage_circuit.specs.Windows.{in_window, left_in, divided_window};

use crate::each::replace_each;
use crate::gates::either_of;
use crate::moves::clear;
use crate::sums::compare;
use mage_driver::Driver;
use mage_instr::DriverFault;

// The quotient of two numbers.
pub fn quotient<D: Driver>(
    driver: &mut D,
    a: &[D::Wire],
    b: &[D::Wire],
    window: &mut [D::Wire],
    bits: &mut [D::Wire],
    out: &mut [D::Wire],
) -> Result<(), DriverFault>
    requires running { (D.tells driver.old).standing ≡ standing.Running }
    requires same { length b.now ≡ length a.now }
    requires some { 1 ≤ length a.now }
    requires window { length window.old ≡ 2 * length a.now }
    requires bits { length bits.old ≡ length a.now }
    requires room { length out.old ≡ length a.now }
    ensures { Leaves D.rules (formed D.rules (λ all. all.quotient) (divided D.rules a.now b.now))
        (D.tells driver.old) (D.tells driver.new) (λ _. out.new) result }
{
    divide(driver, a, b, window, bits)?;
    out.copy_from_slice(&window[a.len()..]);
    Ok(())
}

// What division leaves.
pub fn remainder<D: Driver>(
    driver: &mut D,
    a: &[D::Wire],
    b: &[D::Wire],
    window: &mut [D::Wire],
    bits: &mut [D::Wire],
    out: &mut [D::Wire],
) -> Result<(), DriverFault>
    requires running { (D.tells driver.old).standing ≡ standing.Running }
    requires same { length b.now ≡ length a.now }
    requires some { 1 ≤ length a.now }
    requires window { length window.old ≡ 2 * length a.now }
    requires bits { length bits.old ≡ length a.now }
    requires room { length out.old ≡ length a.now }
    ensures { Leaves D.rules (formed D.rules (λ all. all.rest) (divided D.rules a.now b.now))
        (D.tells driver.old) (D.tells driver.new) (λ _. out.new) result }
{
    divide(driver, a, b, window, bits)?;
    out.copy_from_slice(&window[..a.len()]);
    Ok(())
}

// Divides, from the highest bit on. The dividend stands in the lower half of the window, zeros above it. At each turn what is
// left stands one place lower, on top of the next bit of the dividend, and the place that comes free above it takes the bit of
// the quotient. So in the end what is left stands in the lower half, and the quotient in the upper.
fn divide<D: Driver>(
    driver: &mut D,
    a: &[D::Wire],
    b: &[D::Wire],
    window: &mut [D::Wire],
    bits: &mut [D::Wire],
) -> Result<(), DriverFault>
    requires running { (D.tells driver.old).standing ≡ standing.Running }
    requires same { length b.now ≡ length a.now }
    requires some { 1 ≤ length a.now }
    requires room { length window.old ≡ 2 * length a.now }
    requires bits { length bits.old ≡ length a.now }
    ensures { Leaves D.rules (divided D.rules a.now b.now)
        (D.tells driver.old) (D.tells driver.new)
        (λ _. in_window (length a.now) window.new) result }
{
    let width = b.len();
    window[..width].copy_from_slice(a);
    clear(driver, &mut window[width..]);
    divide_window(driver, b, window, bits)
}

// Divides what stands in the lower half of the window, where zeros stand above it.
fn divide_window<D: Driver>(
    driver: &mut D,
    b: &[D::Wire],
    window: &mut [D::Wire],
    bits: &mut [D::Wire],
) -> Result<(), DriverFault>
    requires running { (D.tells driver.old).standing ≡ standing.Running }
    requires some { 1 ≤ length b.now }
    requires room { length window.old ≡ 2 * length b.now }
    requires bits { length bits.old ≡ length b.now }
    ensures { Leaves D.rules (divided_window D.rules b.now (length b.now) window.old)
        (D.tells driver.old) (D.tells driver.new)
        (λ _. in_window (length b.now) window.new) result }
{
    let width = b.len();
    for k in 0..width {
        let place = width - 1 - k;
        let goes = divide_bit(driver, b, &mut window[place..place + width + 1], bits)?;
        window[place + width] = goes;
    }
    Ok(())
}

// One bit of a quotient. Before it the bit of the dividend stands below what is left of the bits above it; after it what is
// left stands lowest.
fn divide_bit<D: Driver>(
    driver: &mut D,
    b: &[D::Wire],
    window: &mut [D::Wire],
    bits: &mut [D::Wire],
) -> Result<D::Wire, DriverFault>
    requires running { (D.tells driver.old).standing ≡ standing.Running }
    requires some { 1 ≤ length b.now }
    requires room { length window.old ≡ length b.now + 1 }
    requires bits { length bits.old ≡ length b.now }
    ensures { (bit : D.Wire) (rest : List D.Wire) → window.old ≡ bit ∷ rest →
        Leaves D.rules (taken_away D.rules b.now bit rest)
        (D.tells driver.old) (D.tells driver.new) (left_in (length b.now) window.new) result }
{
    let width = b.len();
    let top = window[width];
    let carry = compare(driver, &window[..width], b, bits)?;
    let goes = either_of(driver, top, carry)?;
    replace_each(driver, goes, &mut window[..width], bits)?;
    Ok(goes)
}

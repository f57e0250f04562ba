// Which of two numbers is less.
ghost use Rattle.std.specs.Prelude.{◌≡◌, ◌≤◌, [], ◌∷◌, length, take};
ghost use Rattle.std.specs.List.{zip};
ghost use Rattle.mage_driver.specs.declared.standing.Standing.TheVariants as standing;
ghost use Rattle.mage_driver.specs.Circuits.{Leaves, Gives, formed};
ghost use Rattle.mage_driver.specs.Operations.{less, least, greatest};

use crate::each::{choose_each, replace_into};
use crate::sums::compare;
use mage_driver::Driver;
use mage_instr::DriverFault;

// Whether the first of two numbers is less.
fn is_less<D: Driver>(
    driver: &mut D,
    a: &[D::Wire],
    b: &[D::Wire],
    bits: &mut [D::Wire],
) -> Result<D::Wire, DriverFault>
    requires running { (D.tells driver.old).standing ≡ standing.Running }
    requires same { length b.now ≡ length a.now }
    requires some { 1 ≤ length a.now }
    requires bits { length bits.old ≡ length a.now }
    ensures { Gives D.rules (less D.rules (zip a.now b.now))
        (D.tells driver.old) (D.tells driver.new) result }
{
    let carry = compare(driver, a, b, bits)?;
    Ok(driver.not(carry))
}

// Whether the first of two numbers is less, in the lowest wire.
pub fn less<D: Driver>(
    driver: &mut D,
    a: &[D::Wire],
    b: &[D::Wire],
    out: &mut [D::Wire],
) -> Result<(), DriverFault>
    requires running { (D.tells driver.old).standing ≡ standing.Running }
    requires same { length b.now ≡ length a.now }
    requires some { 1 ≤ length a.now }
    requires room { length out.old ≡ length a.now }
    ensures { Leaves D.rules
        (formed D.rules (λ is_less. is_less ∷ []) (less D.rules (zip a.now b.now)))
        (D.tells driver.old) (D.tells driver.new) (λ _. take 1 out.new) result }
{
    let less = is_less(driver, a, b, out)?;
    out[0] = less;
    Ok(())
}

// The lesser of two numbers.
pub fn least<D: Driver>(
    driver: &mut D,
    a: &[D::Wire],
    b: &[D::Wire],
    out: &mut [D::Wire],
) -> Result<(), DriverFault>
    requires running { (D.tells driver.old).standing ≡ standing.Running }
    requires same { length b.now ≡ length a.now }
    requires some { 1 ≤ length a.now }
    requires room { length out.old ≡ length a.now }
    ensures { Leaves D.rules (least D.rules (zip a.now b.now))
        (D.tells driver.old) (D.tells driver.new) (λ _. out.new) result }
{
    let less = is_less(driver, a, b, out)?;
    choose_each(driver, less, a, b, out)
}

// The greater of two numbers.
pub fn greatest<D: Driver>(
    driver: &mut D,
    a: &[D::Wire],
    b: &[D::Wire],
    out: &mut [D::Wire],
) -> Result<(), DriverFault>
    requires running { (D.tells driver.old).standing ≡ standing.Running }
    requires same { length b.now ≡ length a.now }
    requires some { 1 ≤ length a.now }
    requires room { length out.old ≡ length a.now }
    ensures { Leaves D.rules (greatest D.rules (zip a.now b.now))
        (D.tells driver.old) (D.tells driver.new) (λ _. out.new) result }
{
    let less = is_less(driver, a, b, out)?;
    replace_into(driver, less, a, b, out)
}

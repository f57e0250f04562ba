// Circuits that go bit by bit.
ghost use Rattle.std.specs.Prelude.{◌≡◌, ◌≤◌, [], ◌∷◌, length, take};
ghost use Rattle.std.specs.List.{zip};
ghost use Rattle.mage_driver.specs.declared.standing.Standing.TheVariants as standing;
ghost use Rattle.mage_driver.specs.Circuits.{Leaves, Gives, formed};
ghost use Rattle.mage_driver.specs.Operations.{each, and_bit, or_bit, choose_bit, replace_bit, row, equal};

use crate::gates::{both_of, chosen_of, or_of, replaced_of, same_of};
use mage_driver::Driver;
use mage_instr::DriverFault;

// a . b for each pair of bits
pub fn and_each<D: Driver>(
    driver: &mut D,
    a: &[D::Wire],
    b: &[D::Wire],
    out: &mut [D::Wire],
) -> Result<(), DriverFault>
    requires running { (D.tells driver.old).standing ≡ standing.Running }
    requires same { length b.now ≡ length a.now }
    requires room { length out.old ≡ length a.now }
    ensures { Leaves D.rules (each D.rules (and_bit D.rules) (zip a.now b.now))
        (D.tells driver.old) (D.tells driver.new) (λ _. out.new) result }
{
    for i in 0..a.len() {
        let wire = both_of(driver, a[i], b[i])?;
        out[i] = wire;
    }
    Ok(())
}

// a ^ b ^ (a . b) for each pair of bits
pub fn or_each<D: Driver>(
    driver: &mut D,
    a: &[D::Wire],
    b: &[D::Wire],
    out: &mut [D::Wire],
) -> Result<(), DriverFault>
    requires running { (D.tells driver.old).standing ≡ standing.Running }
    requires same { length b.now ≡ length a.now }
    requires room { length out.old ≡ length a.now }
    ensures { Leaves D.rules (each D.rules (or_bit D.rules) (zip a.now b.now))
        (D.tells driver.old) (D.tells driver.new) (λ _. out.new) result }
{
    for i in 0..a.len() {
        let wire = or_of(driver, a[i], b[i])?;
        out[i] = wire;
    }
    Ok(())
}

// the bits of the first number where the condition is 1, else those of the second
pub fn choose_each<D: Driver>(
    driver: &mut D,
    condition: D::Wire,
    a: &[D::Wire],
    b: &[D::Wire],
    out: &mut [D::Wire],
) -> Result<(), DriverFault>
    requires running { (D.tells driver.old).standing ≡ standing.Running }
    requires same { length b.now ≡ length a.now }
    requires room { length out.old ≡ length a.now }
    ensures { Leaves D.rules (each D.rules (choose_bit D.rules condition) (zip a.now b.now))
        (D.tells driver.old) (D.tells driver.new) (λ _. out.new) result }
{
    for i in 0..a.len() {
        let wire = chosen_of(driver, condition, a[i], b[i])?;
        out[i] = wire;
    }
    Ok(())
}

// the bits of the second number where the condition is 1, else those of the first
pub fn replace_into<D: Driver>(
    driver: &mut D,
    condition: D::Wire,
    a: &[D::Wire],
    b: &[D::Wire],
    out: &mut [D::Wire],
) -> Result<(), DriverFault>
    requires running { (D.tells driver.old).standing ≡ standing.Running }
    requires same { length b.now ≡ length a.now }
    requires room { length out.old ≡ length a.now }
    ensures { Leaves D.rules (each D.rules (replace_bit D.rules condition) (zip a.now b.now))
        (D.tells driver.old) (D.tells driver.new) (λ _. out.new) result }
{
    for i in 0..a.len() {
        let wire = replaced_of(driver, condition, a[i], b[i])?;
        out[i] = wire;
    }
    Ok(())
}

// the bits of a number, replaced by those of another where the condition is 1
pub fn replace_each<D: Driver>(
    driver: &mut D,
    condition: D::Wire,
    bits: &mut [D::Wire],
    others: &[D::Wire],
) -> Result<(), DriverFault>
    requires running { (D.tells driver.old).standing ≡ standing.Running }
    requires same { length others.now ≡ length bits.old }
    ensures { Leaves D.rules
        (each D.rules (replace_bit D.rules condition) (zip bits.old others.now))
        (D.tells driver.old) (D.tells driver.new) (λ _. bits.new) result }
{
    for i in 0..bits.len() {
        let wire = replaced_of(driver, condition, bits[i], others[i])?;
        bits[i] = wire;
    }
    Ok(())
}

// each bit of a number with one bit
pub fn row_of<D: Driver>(
    driver: &mut D,
    a: &[D::Wire],
    b: D::Wire,
    out: &mut [D::Wire],
) -> Result<(), DriverFault>
    requires running { (D.tells driver.old).standing ≡ standing.Running }
    requires room { length out.old ≡ length a.now }
    ensures { Leaves D.rules (row D.rules a.now b)
        (D.tells driver.old) (D.tells driver.new) (λ _. out.new) result }
{
    for i in 0..a.len() {
        let wire = both_of(driver, a[i], b)?;
        out[i] = wire;
    }
    Ok(())
}

// whether two numbers are equal, in the lowest wire
pub fn equal<D: Driver>(
    driver: &mut D,
    a: &[D::Wire],
    b: &[D::Wire],
    out: &mut [D::Wire],
) -> Result<(), DriverFault>
    requires running { (D.tells driver.old).standing ≡ standing.Running }
    requires same { length b.now ≡ length a.now }
    requires some { 1 ≤ length a.now }
    requires room { length out.old ≡ length a.now }
    ensures { Leaves D.rules (formed D.rules (λ same. same ∷ []) (equal D.rules (zip a.now b.now)))
        (D.tells driver.old) (D.tells driver.new) (λ _. take 1 out.new) result }
{
    let same = equal_of(driver, a, b)?;
    out[0] = same;
    Ok(())
}

// whether two numbers are equal
fn equal_of<D: Driver>(driver: &mut D, a: &[D::Wire], b: &[D::Wire]) -> Result<D::Wire, DriverFault>
    requires running { (D.tells driver.old).standing ≡ standing.Running }
    requires same { length b.now ≡ length a.now }
    requires some { 1 ≤ length a.now }
    ensures { Gives D.rules (equal D.rules (zip a.now b.now))
        (D.tells driver.old) (D.tells driver.new) result }
{
    let first = driver.xor(a[0], b[0]);
    let mut same = driver.not(first);
    for i in 1..a.len() {
        let next = same_of(driver, same, a[i], b[i])?;
        same = next;
    }
    Ok(same)
}

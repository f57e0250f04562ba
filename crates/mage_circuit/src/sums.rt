// Sums, differences and comparisons.
ghost use Rattle.std.specs.Prelude.{◌≡◌, ◌≤◌, ◌-◌, length, take, drop, OnOk};
ghost use Rattle.std.specs.List.{zip};
ghost use Rattle.mage_driver.specs.declared.standing.Standing.TheVariants as standing;
ghost use Rattle.mage_driver.specs.Circuits.{Leaves, folded};
ghost use Rattle.mage_driver.specs.Operations.{added, subtracted, compared, add_bit, subtract_bit, starting};

use crate::gates::{both_of, carry_of, first_carry, sum_of};
use mage_driver::Driver;
use mage_instr::DriverFault;

// The sum of two numbers.
pub fn add<D: Driver>(
    driver: &mut D,
    a: &[D::Wire],
    b: &[D::Wire],
    out: &mut [D::Wire],
) -> Result<(), DriverFault>
    requires running { (D.tells driver.old).standing ≡ standing.Running }
    requires same { length b.now ≡ length a.now }
    requires some { 1 ≤ length a.now }
    requires room { length out.old ≡ length a.now }
    ensures { Leaves D.rules (added D.rules (zip a.now b.now))
        (D.tells driver.old) (D.tells driver.new) (λ _. out.new) result }
{
    out.copy_from_slice(a);
    add_onto(driver, out, b)
}

// The sum of two numbers, in place of the first. The last bit makes no carry.
pub fn add_onto<D: Driver>(
    driver: &mut D,
    sum: &mut [D::Wire],
    line: &[D::Wire],
) -> Result<(), DriverFault>
    requires running { (D.tells driver.old).standing ≡ standing.Running }
    requires same { length line.now ≡ length sum.old }
    requires some { 1 ≤ length line.now }
    ensures { Leaves D.rules (added D.rules (zip sum.old line.now))
        (D.tells driver.old) (D.tells driver.new) (λ _. sum.new) result }
{
    let last = line.len() - 1;
    let x = sum[0];
    let y = line[0];
    let lowest = driver.xor(x, y);
    if last == 0 {
        sum[0] = lowest;
        return Ok(());
    }
    let first = both_of(driver, x, y)?;
    let carry = add_middle(driver, first, sum, line, last)?;
    sum[last] = sum_of(driver, sum[last], line[last], carry);
    sum[0] = lowest;
    Ok(())
}

// The bits between the first and the last, from a carry on.
fn add_middle<D: Driver>(
    driver: &mut D,
    first: D::Wire,
    sum: &mut [D::Wire],
    line: &[D::Wire],
    last: usize,
) -> Result<D::Wire, DriverFault>
    requires running { (D.tells driver.old).standing ≡ standing.Running }
    requires same { length line.now ≡ length sum.old }
    requires some { 1 ≤ last }
    requires within { last ≤ length line.now }
    ensures circuit { Leaves D.rules
        (folded D.rules (add_bit D.rules) (starting D.rules first)
        (take (last - 1) (drop 1 (zip sum.old line.now))))
        (D.tells driver.old) (D.tells driver.new)
        (λ carry. record { carry = carry; bits = take (last - 1) (drop 1 sum.new) }) result }
    ensures others { OnOk result (drop last sum.new ≡ drop last sum.old) }
{
    let mut carry = first;
    for i in 1..last {
        let x = sum[i];
        let y = line[i];
        sum[i] = sum_of(driver, x, y, carry);
        let next = carry_of(driver, x, y, carry)?;
        carry = next;
    }
    Ok(carry)
}

// The difference of two numbers. The last bit makes no carry.
pub fn subtract<D: Driver>(
    driver: &mut D,
    a: &[D::Wire],
    b: &[D::Wire],
    out: &mut [D::Wire],
) -> Result<(), DriverFault>
    requires running { (D.tells driver.old).standing ≡ standing.Running }
    requires same { length b.now ≡ length a.now }
    requires some { 1 ≤ length a.now }
    requires room { length out.old ≡ length a.now }
    ensures { Leaves D.rules (subtracted D.rules (zip a.now b.now))
        (D.tells driver.old) (D.tells driver.new) (λ _. out.new) result }
{
    let last = a.len() - 1;
    let x = a[0];
    let y = b[0];
    let lowest = driver.xor(x, y);
    if last == 0 {
        out[0] = lowest;
        return Ok(());
    }
    let first = first_carry(driver, x, y)?;
    let carry = subtract_middle(driver, first, a, b, out, last)?;
    let turned = driver.not(b[last]);
    out[last] = sum_of(driver, a[last], turned, carry);
    out[0] = lowest;
    Ok(())
}

// The difference of two numbers, and the carry of its last bit, which is 0 where the first is less.
pub fn compare<D: Driver>(
    driver: &mut D,
    a: &[D::Wire],
    b: &[D::Wire],
    out: &mut [D::Wire],
) -> Result<D::Wire, DriverFault>
    requires running { (D.tells driver.old).standing ≡ standing.Running }
    requires same { length b.now ≡ length a.now }
    requires some { 1 ≤ length a.now }
    requires room { length out.old ≡ length a.now }
    ensures { Leaves D.rules (compared D.rules (zip a.now b.now))
        (D.tells driver.old) (D.tells driver.new)
        (λ carry. record { carry = carry; bits = out.new }) result }
{
    let x = a[0];
    let y = b[0];
    let lowest = driver.xor(x, y);
    let first = first_carry(driver, x, y)?;
    let carry = subtract_middle(driver, first, a, b, out, a.len())?;
    out[0] = lowest;
    Ok(carry)
}

// The bits after the first and before the last, from a carry on.
fn subtract_middle<D: Driver>(
    driver: &mut D,
    first: D::Wire,
    a: &[D::Wire],
    b: &[D::Wire],
    out: &mut [D::Wire],
    last: usize,
) -> Result<D::Wire, DriverFault>
    requires running { (D.tells driver.old).standing ≡ standing.Running }
    requires same { length b.now ≡ length a.now }
    requires some { 1 ≤ last }
    requires within { last ≤ length a.now }
    requires room { length out.old ≡ length a.now }
    ensures { Leaves D.rules
        (folded D.rules (subtract_bit D.rules) (starting D.rules first)
        (take (last - 1) (drop 1 (zip a.now b.now))))
        (D.tells driver.old) (D.tells driver.new)
        (λ carry. record { carry = carry; bits = take (last - 1) (drop 1 out.new) }) result }
{
    let mut carry = first;
    for i in 1..last {
        let x = a[i];
        let y = driver.not(b[i]);
        out[i] = sum_of(driver, x, y, carry);
        let next = carry_of(driver, x, y, carry)?;
        carry = next;
    }
    Ok(carry)
}

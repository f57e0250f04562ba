// Products.
ghost use Rattle.std.specs.Prelude.{◌≡◌, ◌≤◌, length, take};
ghost use Rattle.mage_driver.specs.declared.standing.Standing.TheVariants as standing;
ghost use Rattle.mage_driver.specs.Circuits.{Leaves};
ghost use Rattle.mage_driver.specs.Operations.{multiplied};

use crate::each::row_of;
use crate::sums::add_onto;
use mage_driver::Driver;
use mage_instr::DriverFault;

// The product of two numbers: a row for each bit of the second, added to the sum of those before it.
pub fn multiply<D: Driver>(
    driver: &mut D,
    a: &[D::Wire],
    b: &[D::Wire],
    out: &mut [D::Wire],
    line: &mut [D::Wire],
) -> Result<(), DriverFault>
    requires running { (D.tells driver.old).standing ≡ standing.Running }
    requires same { length b.now ≡ length a.now }
    requires some { 1 ≤ length a.now }
    requires room { length out.old ≡ length a.now }
    requires line { length line.old ≡ length a.now }
    ensures { Leaves D.rules (multiplied D.rules a.now b.now)
        (D.tells driver.old) (D.tells driver.new) (λ _. out.new) result }
{
    let width = a.len();
    row_of(driver, a, b[0], out)?;
    for i in 1..width {
        let part = &a[..width - i];
        row_of(driver, part, b[i], &mut line[..width - i])?;
        add_onto(driver, &mut out[i..width], &line[..width - i])?;
    }
    Ok(())
}

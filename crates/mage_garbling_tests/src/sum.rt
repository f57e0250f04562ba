// The sum of an input of the garbler and one of the evaluator, of 8 bits each, by the calls that its circuit makes.
ghost use Rattle.std.specs.Prelude.{◌≡◌, OnOk};
ghost use Rattle.mage_driver.specs.declared.standing.Standing.TheVariants as standing;

use mage_driver::Driver;
use mage_instr::{DriverFault, Party};
use mage_label::Label;

// One bit of the sum, and the next carry.
fn carried<D: Driver<Wire = Label>>(
    driver: &mut D,
    a: Label,
    b: Label,
    carry: Label,
) -> Result<Label, DriverFault>
    requires { (D.tells driver.old).standing ≡ standing.Running }
    ensures { OnOk result ((D.tells driver.new).standing ≡ standing.Running) }
{
    let both = driver.and(driver.xor(a, carry), driver.xor(b, carry))?;
    Ok(driver.xor(carry, both))
}

fn summed<D: Driver<Wire = Label>>(
    driver: &mut D,
    a: &[Label; 8],
    b: &[Label; 8],
) -> Result<[Label; 8], DriverFault>
    requires { (D.tells driver.old).standing ≡ standing.Running }
    ensures { OnOk result ((D.tells driver.new).standing ≡ standing.Running) }
{
    let mut sum = *a;
    sum[0] = driver.xor(a[0], b[0]);
    let mut carry = driver.and(a[0], b[0])?;
    for i in 1..8 {
        sum[i] = driver.xor(driver.xor(a[i], b[i]), carry);
        if i < 7 {
            carry = carried(driver, a[i], b[i], carry)?;
        }
    }
    Ok(sum)
}

/// Takes both inputs, puts out their sum, and finishes.
pub fn run<D: Driver<Wire = Label>>(driver: &mut D) -> Result<(), DriverFault>
    requires { (D.tells driver.old).standing ≡ standing.Running }
{
    let mut a = [Label { bytes: [0; 16] }; 8];
    let mut b = a;
    driver.input(Party::Garbler, &mut a)?;
    driver.input(Party::Evaluator, &mut b)?;
    let sum = summed(driver, &a, &b)?;
    driver.output(&sum)?;
    driver.finish()
}

// Circuits of a few gates.
ghost use Rattle.std.specs.Prelude.{◌≡◌};
ghost use Rattle.mage_driver.specs.declared.standing.Standing.TheVariants as standing;
ghost use Rattle.mage_driver.specs.Circuits.{Gives, anded, formed};
ghost use Rattle.mage_driver.specs.Operations.{or_bit, choose_bit, replace_bit, carry_of, sum_bit, first_carry, same_bit, either};

use mage_driver::Driver;
use mage_instr::DriverFault;

// a . b
pub fn both_of<D: Driver>(driver: &mut D, a: D::Wire, b: D::Wire) -> Result<D::Wire, DriverFault>
    requires { (D.tells driver.old).standing ≡ standing.Running }
    ensures { Gives D.rules (anded D.rules a b) (D.tells driver.old) (D.tells driver.new) result }
{
    driver.and(a, b)
}

// a ^ b ^ (a . b)
pub fn or_of<D: Driver>(driver: &mut D, a: D::Wire, b: D::Wire) -> Result<D::Wire, DriverFault>
    requires { (D.tells driver.old).standing ≡ standing.Running }
    ensures { Gives D.rules (or_bit D.rules (a, b))
        (D.tells driver.old) (D.tells driver.new) result }
{
    let other = driver.xor(a, b);
    let both = both_of(driver, a, b)?;
    Ok(driver.xor(other, both))
}

// b ^ (condition . (a ^ b)): a where the condition is 1, else b
pub fn chosen_of<D: Driver>(
    driver: &mut D,
    condition: D::Wire,
    a: D::Wire,
    b: D::Wire,
) -> Result<D::Wire, DriverFault>
    requires { (D.tells driver.old).standing ≡ standing.Running }
    ensures { Gives D.rules (choose_bit D.rules condition (a, b))
        (D.tells driver.old) (D.tells driver.new) result }
{
    let other = driver.xor(a, b);
    let both = both_of(driver, condition, other)?;
    Ok(driver.xor(b, both))
}

// a ^ (condition . (a ^ b)): b where the condition is 1, else a
pub fn replaced_of<D: Driver>(
    driver: &mut D,
    condition: D::Wire,
    a: D::Wire,
    b: D::Wire,
) -> Result<D::Wire, DriverFault>
    requires { (D.tells driver.old).standing ≡ standing.Running }
    ensures { Gives D.rules (replace_bit D.rules condition (a, b))
        (D.tells driver.old) (D.tells driver.new) result }
{
    let other = driver.xor(a, b);
    let both = both_of(driver, condition, other)?;
    Ok(driver.xor(a, both))
}

// carry ^ ((a ^ carry) . (b ^ carry))
pub fn carry_of<D: Driver>(
    driver: &mut D,
    a: D::Wire,
    b: D::Wire,
    carry: D::Wire,
) -> Result<D::Wire, DriverFault>
    requires { (D.tells driver.old).standing ≡ standing.Running }
    ensures { Gives D.rules (carry_of D.rules a b carry)
        (D.tells driver.old) (D.tells driver.new) result }
{
    let left = driver.xor(a, carry);
    let right = driver.xor(b, carry);
    let both = both_of(driver, left, right)?;
    Ok(driver.xor(carry, both))
}

// a ^ b ^ carry
pub fn sum_of<D: Driver>(driver: &D, a: D::Wire, b: D::Wire, carry: D::Wire) -> D::Wire
    requires { (D.tells driver.now).standing ≡ standing.Running }
    ensures { result ≡ sum_bit D.rules a b carry }
{
    let other = driver.xor(a, b);
    driver.xor(other, carry)
}

// ~((~a) . b)
pub fn first_carry<D: Driver>(
    driver: &mut D,
    a: D::Wire,
    b: D::Wire,
) -> Result<D::Wire, DriverFault>
    requires { (D.tells driver.old).standing ≡ standing.Running }
    ensures { Gives D.rules (first_carry D.rules (a, b))
        (D.tells driver.old) (D.tells driver.new) result }
{
    let turned = driver.not(a);
    let both = both_of(driver, turned, b)?;
    Ok(driver.not(both))
}

// same . (~(a ^ b))
pub fn same_of<D: Driver>(
    driver: &mut D,
    same: D::Wire,
    a: D::Wire,
    b: D::Wire,
) -> Result<D::Wire, DriverFault>
    requires { (D.tells driver.old).standing ≡ standing.Running }
    ensures { Gives D.rules (same_bit D.rules same (a, b))
        (D.tells driver.old) (D.tells driver.new) result }
{
    let other = driver.xor(a, b);
    let turned = driver.not(other);
    both_of(driver, same, turned)
}

// a ^ b ^ (a . b), of which the AND comes first
pub fn either_of<D: Driver>(driver: &mut D, a: D::Wire, b: D::Wire) -> Result<D::Wire, DriverFault>
    requires { (D.tells driver.old).standing ≡ standing.Running }
    ensures { Gives D.rules (formed D.rules (either D.rules a b) (anded D.rules a b))
        (D.tells driver.old) (D.tells driver.new) result }
{
    let both = both_of(driver, a, b)?;
    let other = driver.xor(a, b);
    Ok(driver.xor(other, both))
}

// Where the wires of an instruction stand while it is made.
ghost use Rattle.std.specs.Prelude.{◌≡◌, ◌<◌, length, slice_get, Some};
ghost use Rattle.mage_driver.specs.declared.standing.Standing.TheVariants as standing;
ghost use Rattle.mage_circuit.specs.Results.{put_wire};

use mage_base::Memory;
use mage_driver::Driver;
use std::alloc::Global;

/// Room for the wires of any instruction: those of three arguments and those of the result, 128 each.
#[derive(Drop)]
pub struct Scratch<D: Driver> {
    pub first: Vec<D::Wire>,
    pub second: Vec<D::Wire>,
    pub third: Vec<D::Wire>,
    pub result: Vec<D::Wire>,
    // One row of a product, or one difference.
    pub line: Vec<D::Wire>,
    // What is left of a dividend, and the quotient.
    pub window: Vec<D::Wire>,
    ghost first_length: { length first.items ≡ 128 },
    ghost second_length: { length second.items ≡ 128 },
    ghost third_length: { length third.items ≡ 128 },
    ghost result_length: { length result.items ≡ 128 },
    ghost line_length: { length line.items ≡ 128 },
    ghost window_length: { length window.items ≡ 256 },
}

impl<D: Driver> Scratch<D> {
    /// Room for the wires of this driver; what stands in it is open. `Memory` where there is none.
    pub fn make(alloc: Global, driver: &D) -> Result<Scratch<D>, Memory>
        requires { (D.tells driver.now).standing ≡ standing.Running }
    {
        let zero = driver.constant(false);
        Ok(Scratch {
            first: vec![in alloc; zero; 128]?,
            second: vec![in alloc; zero; 128]?,
            third: vec![in alloc; zero; 128]?,
            result: vec![in alloc; zero; 128]?,
            line: vec![in alloc; zero; 128]?,
            window: vec![in alloc; zero; 256]?,
        })
    }

    /// Sets a wire of an argument, counted from 0.
    pub fn put(&mut self, arg: u8, bit: u8, wire: D::Wire)
        requires arg { arg < 3 }
        requires bit { bit < 128 }
        ensures first { self.new.first.items ≡ put_wire arg 0 bit wire self.old.first.items }
        ensures second { self.new.second.items ≡ put_wire arg 1 bit wire self.old.second.items }
        ensures third { self.new.third.items ≡ put_wire arg 2 bit wire self.old.third.items }
        ensures result { self.new.result ≡ self.old.result }
    {
        let place = usize::from(bit);
        match arg {
            0 => self.first[place] = wire,
            1 => self.second[place] = wire,
            _ => self.third[place] = wire,
        }
    }

    /// A wire of the result.
    pub fn get(&self, bit: u8) -> D::Wire
        requires { bit < 128 }
        ensures { slice_get self.now.result.items bit ≡ Some result }
    {
        self.result[usize::from(bit)]
    }
}

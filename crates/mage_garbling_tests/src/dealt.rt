// The labels that are dealt for the sum.
use mage_label::{Label, input_label, offset};
use std::alloc::Global;
use std::test::Fail;

/// The active labels of an input of the evaluator, 100 in 8 bits, behind 8 wires of the garbler, by the seed of zeros.
pub fn dealt(alloc: Global) -> Result<Vec<Label>, Fail> {
    let seed = [0; 32];
    let mut labels = Vec::new(alloc);
    for i in 0..8u64 {
        let zero = input_label(&seed, 0, 8 + i);
        let is_one = 100u64 >> i & 1 == 1;
        labels.push(if is_one {
            zero.xor(offset(&seed))
        } else {
            zero
        })?;
    }
    Ok(labels)
}

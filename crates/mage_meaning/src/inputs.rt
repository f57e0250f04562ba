// The inputs of a source.
use std::marker::Model;

/// The input values of both parties: a list for each worker, in program order.
#[derive(Debug, Drop)]
pub struct Inputs {
    pub garbler: Vec<Vec<u128>>,
    pub evaluator: Vec<Vec<u128>>,
}

impl Model for Inputs {
    ghost use Rattle.std.specs.Prelude.{map};
    ghost use Rattle.mage_meaning.specs.Given.{Given};

    ghost Value = { Given };

    ghost view = { λ i. record {
      garbler = map (λ v. v.items) i.garbler.items;
      evaluator = map (λ v. v.items) i.evaluator.items;
    } };
}

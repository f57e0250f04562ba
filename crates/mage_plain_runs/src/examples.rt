// Small programs that compute, by the definitions alone.
ghost use Rattle.std.specs.Prelude.{◌≡◌, [], ◌∷◌};
ghost use Rattle.mage_plain_runs.specs.Examples.{three_inputs, numbers_in, moved_and_added, five_and_seven, said_after};

/// The joint run of two small memory programs, each worker's turns lowest first: what worker 0 puts out.
pub fn examples_compute()
    ensures swapped { said_after three_inputs numbers_in 13 ≡ 7 ∷ 8 ∷ [] }
    ensures moved { said_after moved_and_added five_and_seven 16 ≡ 12 ∷ [] }
{}

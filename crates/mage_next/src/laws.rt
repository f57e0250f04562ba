// What holds of all next uses.
ghost use Rattle.std.specs.Prelude.{◌≡◌, ℕ, List, All, length};
ghost use Rattle.mage_instr.specs.declared.instr.Step.{Step};
ghost use Rattle.mage_instr.specs.Trace.{IsTrace};
ghost use Rattle.mage_next.specs.Next.{AreNextUses};

/// A trace determines its next uses, of which each step has four.
pub fn next_uses_are_determined()
    ensures { (trace : List Step) (us ws : List (List ℕ)) → IsTrace trace
        → All (λ u. length u ≡ 4) us → All (λ w. length w ≡ 4) ws
        → AreNextUses trace us → AreNextUses trace ws → us ≡ ws }
{}

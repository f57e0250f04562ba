// What a memory program that carries a program does.
ghost use Rattle.mage_carry.specs.Jobs.{EachJobDoesNext, AllAreDone};

/// What holds of each program and each memory program that carries it. In each worker's part each job is the
/// instruction that comes next: as many instructions come before it as there are jobs before it, its opcode, width and
/// immediate are the instruction's, and each argument of the instruction stands at the spot that the job names. And there
/// are as many jobs as instructions.
pub fn laws_of_carrying()
    ensures each { EachJobDoesNext }
    ensures all { AllAreDone }
{}

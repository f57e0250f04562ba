// What a command does that isn't refused.
use mage_gen::Generated;
use mage_instr::Program;
use mage_label::Label;
use mage_verify::Part;

/// What is dealt: the labels of these numbers of the evaluator, by this seed.
#[derive(Drop)]
pub struct Dealing<'a> {
    pub program: Program,
    pub seed: [u8; 32],
    pub evaluator: Vec<Vec<u128>>,
    /// What the names of the label files begin with.
    pub labels: &'a str,
}

/// A file to be written, and the text that is said once it is closed.
#[derive(Drop)]
pub struct Writing<'a> {
    pub name: &'a str,
    pub bytes: Vec<u8>,
    pub text: Vec<u8>,
}

/// A memory program that is run, and the inputs of both parties, a list for each worker.
#[derive(Drop)]
pub struct Running {
    pub parts: Vec<Part>,
    pub garbler: Vec<Vec<u128>>,
    pub evaluator: Vec<Vec<u128>>,
}

/// Three files that are written, and the memory program of the source among them, which is then run.
#[derive(Drop)]
pub struct Generating<'a> {
    /// What the names of the files begin with.
    pub out: &'a str,
    /// What the files hold.
    pub made: Generated,
    /// The text that is said in front of what the run puts out.
    pub summary: Vec<u8>,
    pub running: Running,
}

/// A memory program that is garbled, by this seed, on the garbler's inputs, a list for each worker.
#[derive(Drop)]
pub struct Garbling<'a> {
    pub parts: Vec<Part>,
    pub seed: [u8; 32],
    pub garbler: Vec<Vec<u128>>,
    /// What the names of the stream files begin with.
    pub stream: &'a str,
    /// How many bytes the stream of each worker has at most.
    pub rooms: Vec<u64>,
}

/// A memory program that is evaluated, with the labels of each worker's inputs of the evaluator.
#[derive(Drop)]
pub struct Evaluating<'a> {
    pub parts: Vec<Part>,
    pub labels: Vec<Vec<Label>>,
    /// What the names of the stream files begin with.
    pub stream: &'a str,
}

/// What a command does that isn't refused.
#[derive(Drop)]
pub enum Work<'a> {
    /// To say a text.
    Say(Vec<u8>),
    /// To write label files.
    Deal(Dealing<'a>),
    /// To write one file.
    Write(Writing<'a>),
    /// To run a memory program over stores of the desk, and to say what it puts out.
    Run(Running),
    /// To run a memory program over stores of the desk, and to garble into the stream file of each worker.
    Garble(Garbling<'a>),
    /// To run a memory program over stores of the desk and the stream file of each worker, and to say what is decoded.
    Evaluate(Evaluating<'a>),
    /// To write a source and its inputs, to run its memory program, and to say what that costs and what it puts out.
    Generate(Generating<'a>),
}

use mage_instr::Op;

/// What the first byte of a directive tells.
#[derive(Clone, Copy, Debug, PartialEq, Eq)]
pub enum Kind {
    Do(Op),
    Fresh,
    IssueIn,
    FinishIn,
    IssueOut,
    FinishOut,
}

/// The fields of a directive other than `Do`. One that the directive doesn't have is 0.
#[derive(Clone, Copy, Debug, PartialEq, Eq)]
pub struct Row {
    pub slot: u16,
    pub frame: u16,
    pub page: u32,
}

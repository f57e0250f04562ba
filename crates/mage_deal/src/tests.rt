// Against the bytes of another program, tools/garbled_sum.py: the labels of an evaluator's 100, behind 8 wires of the garbler,
// with a seed of 32 zero bytes.
use super::label_file;
use mage_base::Memory;
use mage_instr::{Instr, Op, Program};
use sha2::{Digest, Sha256};
use sqlite_items::Items;
use std::alloc::Global;
use std::test::Fail;

const FIRST: [u8; 16] = [
    0xee, 0x2e, 0xe0, 0x62, 0xd6, 0xe5, 0x1a, 0x8e, 0x05, 0x39, 0x30, 0x1f, 0x18, 0x94, 0xd7, 0x0a,
];

const ALL: [u8; 32] = [
    0xeb, 0x22, 0xc1, 0x0e, 0xe7, 0x50, 0x1b, 0x90, 0x85, 0x6b, 0x88, 0xbb, 0x83, 0x25, 0x0a, 0xf1,
    0xc0, 0x1f, 0x4b, 0x73, 0x85, 0x00, 0xde, 0x8d, 0xe8, 0xe4, 0x37, 0x9d, 0x46, 0x4e, 0x93, 0xed,
];

fn input(imm: u64) -> Instr {
    Instr {
        op: Op::Input,
        width: 8,
        args: [0; 3],
        imm,
    }
}

fn sum() -> Instr {
    Instr {
        op: Op::Add,
        width: 8,
        args: [0, 1, 0],
        imm: 0,
    }
}

// A worker that adds an input of each party, and one that does nothing.
fn program(alloc: Global) -> Result<Program, Memory> {
    let mut workers = Items::new(alloc);
    workers.push(Items::from_slice(alloc, &[input(0), input(1), sum()])?)?;
    workers.push(Items::new(alloc))?;
    Ok(Program {
        workers,
        order: Items::from_slice(alloc, &[0, 0, 0])?,
    })
}

fn labels(alloc: Global, worker: u16, values: &[u128]) -> Result<Vec<u8>, Memory> {
    let program = program(alloc)?;
    label_file(alloc, &program, &[0; 32], worker, values)
}

#[test]
fn the_labels_of_another_program(rt: HostRuntime) -> Result<(), Fail> {
    let bytes = labels(rt.alloc(), 0, &[100])?;
    assert_eq!(rt; bytes.len(), 128usize);
    assert!(rt; bytes.as_slice().starts_with(&FIRST));
    assert_eq!(rt; Sha256::digest(bytes.as_slice()), ALL);
    Ok(())
}

#[test]
fn a_worker_without_inputs_has_an_empty_file(rt: HostRuntime) -> Result<(), Fail> {
    assert!(rt; labels(rt.alloc(), 1, &[])?.is_empty());
    assert!(rt; labels(rt.alloc(), 2, &[])?.is_empty());
    Ok(())
}

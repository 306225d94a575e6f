//! The program, and the file that it stands in.
ghost use Rattle.std.specs.Prelude.{◌≡◌, ◌≤◌, ◌∷◌, ◌++◌, [], IfOk, All};
ghost use Rattle.rv_types.specs.Word.{to_le};
ghost use Rattle.gen_image.specs.Generated.{beginning, ending, blocks_from, bytes_of, twos, fours, file_header, part_header, generated_image};
ghost use Rattle.gen_image.specs.Encoded.{HasWord};

use crate::blocks::{BASE, add_immediate, block, register};
use crate::draws::Draws;
use byteorder::{ByteOrder, LittleEndian};
use rv_decode::encode;
use rv_types::{Instr, NoMemory, Op};
use std::alloc::Global;

/// The address of the first instruction.
const START: u32 = 0x0001_0000;

/// The bytes of the file's header, and of a part's.
const FILE_HEADER: u32 = 52;

const PART_HEADER: u32 = 32;

/// The first bytes: an ELF file of class, data and version 1.
const IDENTIFICATION: [u8; 16] = [0x7f, 0x45, 0x4c, 0x46, 1, 1, 1, 0, 0, 0, 0, 0, 0, 0, 0, 0];

// The registers of a program: none, the stack pointer, the number of a call, and the rounds that are left.
const ZERO: u32 = 0;

const STACK: u32 = 2;

const CALL: u32 = 17;

const ROUNDS: u32 = 9;

fn add_two(file: &mut Vec<u8>, number: u16) -> Result<(), NoMemory>
    ensures { IfOk result (λ _. file.new.items ≡ file.old.items ++ to_le 2 number) }
{
    let mut two = [0u8; 2];
    LittleEndian::write_u16(&mut two, number);
    file.extend_from_slice(&two)?;
    Ok(())
}

fn add_four(file: &mut Vec<u8>, number: u32) -> Result<(), NoMemory>
    ensures { IfOk result (λ _. file.new.items ≡ file.old.items ++ to_le 4 number) }
{
    let mut four = [0u8; 4];
    LittleEndian::write_u32(&mut four, number);
    file.extend_from_slice(&four)?;
    Ok(())
}

fn add_twos(file: &mut Vec<u8>, numbers: &[u16]) -> Result<(), NoMemory>
    ensures { IfOk result (λ _. file.new.items ≡ file.old.items ++ twos numbers.now) }
{
    for number in numbers {
        add_two(file, *number)?;
    }
    Ok(())
}

fn add_fours(file: &mut Vec<u8>, numbers: &[u32]) -> Result<(), NoMemory>
    ensures { IfOk result (λ _. file.new.items ≡ file.old.items ++ fours numbers.now) }
{
    for number in numbers {
        add_four(file, *number)?;
    }
    Ok(())
}

// The two headers of a file with so many bytes of code.
fn add_headers(file: &mut Vec<u8>, size: u32) -> Result<(), NoMemory>
    requires { file.old.items ≡ [] }
    ensures { IfOk result (λ _. file.new.items ≡ file_header ++ part_header size) }
{
    file.extend_from_slice(&IDENTIFICATION)?;
    add_twos(file, &[2, 243])?;
    add_fours(file, &[1, START, FILE_HEADER, 0, 0])?;
    add_twos(file, &[FILE_HEADER as u16, PART_HEADER as u16, 1, 0, 0, 0])?;
    add_fours(
        file,
        &[1, FILE_HEADER + PART_HEADER, START, START, size, size, 5, 4],
    )
}

fn add_instr(file: &mut Vec<u8>, instr: &Instr) -> Result<(), NoMemory>
    requires { HasWord instr.now }
    ensures { IfOk result (λ _. file.new.items ≡ file.old.items ++ bytes_of (instr.now ∷ [])) }
{
    match encode(instr) {
        Some(word) => add_four(file, word),
        None => unreachable!(),
    }
}

fn add_instrs(file: &mut Vec<u8>, instrs: &[Instr]) -> Result<(), NoMemory>
    requires { All HasWord instrs.now }
    ensures { IfOk result (λ _. file.new.items ≡ file.old.items ++ bytes_of instrs.now) }
{
    for instr in instrs {
        add_instr(file, instr)?;
    }
    Ok(())
}

fn add_blocks(file: &mut Vec<u8>, draws: &mut Draws, blocks: u32) -> Result<(), NoMemory>
    ensures { IfOk result (λ _. file.new.items ≡ file.old.items ++ bytes_of (blocks_from blocks draws.old.state)) }
{
    for _ in 0..blocks {
        add_instrs(file, &block(draws))?;
    }
    Ok(())
}

fn beginning() -> [Instr; 2]
    ensures { result ≡ beginning }
{
    [
        add_immediate(register(BASE), register(STACK), -1024),
        add_immediate(register(ROUNDS), register(ZERO), 4),
    ]
}

// `blocks` are at most 4096, so the way back is one that a jump can take.
fn ending(blocks: u32) -> [Instr; 5]
    requires { blocks ≤ 4096 }
    ensures { result ≡ ending blocks }
{
    [
        add_immediate(register(ROUNDS), register(ROUNDS), -1),
        Instr::Branch {
            op: Op::Beq,
            rs1: register(ROUNDS),
            rs2: register(ZERO),
            imm: 8,
        },
        Instr::Jal {
            rd: register(ZERO),
            imm: -((8 * blocks + 8) as i32),
        },
        add_immediate(register(CALL), register(ZERO), 93),
        Instr::Ecall,
    ]
}

/// The ELF file of a seed and a number of blocks, 1 to 4096: the same bytes for the same numbers (`docs/formats.md`,
/// "Generated images"). The one error is want of memory.
#[tactic(auto, unfolding(crate::specs::Generated::generated_image))]
pub fn generate(alloc: Global, seed: u64, blocks: u32) -> Result<Vec<u8>, NoMemory>
    requires some { 1 ≤ blocks }
    requires few { blocks ≤ 4096 }
    ensures { IfOk result (λ file. file.items ≡ generated_image seed blocks) }
{
    let mut file = Vec::new(alloc);
    add_headers(&mut file, 4 * (2 * blocks + 7))?;
    add_instrs(&mut file, &beginning())?;
    let mut draws = Draws::new(seed);
    add_blocks(&mut file, &mut draws, blocks)?;
    add_instrs(&mut file, &ending(blocks))?;
    Ok(file)
}

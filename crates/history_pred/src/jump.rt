//! Which jumps link, and which return.
ghost use Rattle.std.specs.Prelude.{◌≡◌};
ghost use Rattle.window_model.specs.History.{links, returns};

use rv_types::Instr;

// Whether an instruction is a jump that links by x1.
pub(crate) fn links(instr: &Instr) -> bool
    ensures { result ≡ links instr.now }
{
    match instr {
        Instr::Jal { rd, .. } => rd.number == 1,
        Instr::Jalr { rd, .. } => rd.number == 1,
        _ => false,
    }
}

// Whether an instruction is a JALR that goes by x1 and doesn't link.
pub(crate) fn returns(instr: &Instr) -> bool
    ensures { result ≡ returns instr.now }
{
    match instr {
        Instr::Jalr { rd, rs1, .. } => rd.number == 0 && rs1.number == 1,
        _ => false,
    }
}

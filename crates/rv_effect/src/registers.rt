//! A register that is written.
ghost use Rattle.std.specs.Prelude.{◌≡◌};
ghost use Rattle.std.specs.Option.{option_map};
ghost use Rattle.rv_types.specs.Isa.{with_reg};

use rv_types::{REGISTERS, Reg};

/// Writes a register, where one is named.
#[inline]
pub fn write_reg(regs: &mut [u32; REGISTERS], register: Option<Reg>, value: u32)
    ensures { regs.new ≡ with_reg regs.old (option_map (λ r. r.number) register) value }
{
    if let Some(register) = register {
        regs[register.number as usize] = value;
    }
}

//! The step of a system call.
ghost use Rattle.std.specs.Prelude.{◌≡◌, []};
ghost use Rattle.rv_types.specs.Isa.{call};
ghost use Rattle.isa_step.specs.Outcome.{outcome};

use crate::state::Isa;
use crate::stepped::Stepped;
use rv_types::Piece;

impl Isa {
    // Executes an ECALL: the run goes on with the call's answer in a0, or ends with an exit's value.
    pub(crate) fn call(&mut self, out: &mut Piece) -> Stepped
        requires { out.old ≡ [] }
        ensures stepped { record { hart = self.new.hart; piece = out.new; stepped = result }
            ≡ outcome self.old.hart (call self.old.hart) }
        ensures code { self.new.code ≡ self.old.code }
    {
        match rv_effect::call(&mut self.pc, &mut self.regs, &self.ram, out) {
            Some(value) => Stepped::Exit(value),
            None => Stepped::Next,
        }
    }
}

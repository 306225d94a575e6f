//! The steps that are no phase: the cycle is counted, and the visibility point moves.
ghost use Rattle.std.specs.Prelude.{◌≡◌, ◌<◌, ◌+◌, ◌-◌, ◌^◌};
ghost use Rattle.visibility.specs.Point.{HasAdvanced, moved_over};

use crate::giving::advance_and_wake;
use crate::parts::Parts;
use machine_desc::Defence;
use rename_taint::RenameTaint;

impl<R: RenameTaint> Parts<R> {
    /// Begins the next cycle: its number is one more.
    pub fn begin(&mut self)
        requires few { self.old.machine.cycle < 2 ^ 32 - 1 }
        ensures { self.new ≡ record self.old {
          machine = record self.old.machine { cycle = self.old.machine.cycle + 1 };
        } }
    {
        self.cycle += 1;
    }

    /// The point moves over the window: then it says which entries are visible. Under `hold` loads that are Done and
    /// that it passes give their values from then on: the stations await none of them any more.
    #[inline(always)]
    pub fn advance(&mut self)
        ensures moved { self.new ≡ record self.old { point = moved_over self.old.machine.window self.old.point } }
        ensures advanced { HasAdvanced self.new.point self.new.machine.window }
    {
        match self.desc.stt_defence {
            Defence::Stt | Defence::Delay => self.point.advance(&self.rob),
            Defence::Hold => advance_and_wake(&mut self.point, &self.rob, &mut self.stations),
        }
    }
}

//! The parts that are lent: what each tells of the machine.
ghost use Rattle.std.specs.Prelude.{◌≡◌, ◌<◌, true, length};
ghost use Rattle.refinement.specs.Telling.{hold_of};
ghost use Rattle.queue_laws.specs.Window.{StandFor, Tracks};
ghost use Rattle.visibility.specs.Point.{HasAdvanced};
ghost use Rattle.machine_desc.specs.Questions.{loads_pass};
ghost use Rattle.core_parts.specs.Lent.{HasAddressRoots, HasRoots, HoldsWaiting, NamesRoots, NamesWriters};
ghost use Rattle.core_parts.specs.Lent.{TellsPart, TellsReady};

use crate::parts::Parts;
use lsq::Lsq;
use rename_taint::RenameTaint;
use rob_ring::{RobRing, sources_at};
use stations::Stations;
use visibility::VisPoint;

impl<R: RenameTaint> Parts<R> {
    /// The reorder buffer: it has the window.
    pub fn rob(&self) -> &RobRing
        ensures { result.now.entries ≡ self.now.machine.window }
    {
        &self.rob
    }

    /// The rename table: it names each register's writer, and its youngest root.
    pub fn table(&self) -> &R
        ensures writers { NamesWriters (R.writes result.now) self.now.machine.window }
        ensures roots { NamesRoots self.now.machine.next_serial (R.writes result.now) self.now.machine.window }
    {
        &self.table
    }

    /// The stations: they hold the entries that wait and what these want and await, as far as results are held back by
    /// the visibility point; and they tell which are ready, and of a store which part is, where the point has moved
    /// over the window. Kept for who looks at parts from outside.
    pub fn stations(&self) -> &Stations
        ensures waiting { HoldsWaiting self.now.desc.version (hold_of self.now.desc self.now.point) result.now
            self.now.machine.window }
        ensures ready { HasAdvanced self.now.point self.now.machine.window
            → TellsReady self.now.desc result.now self.now.machine.window }
        ensures parts { HasAdvanced self.now.point self.now.machine.window
            → TellsPart self.now.desc result.now self.now.machine.window }
    {
        &self.stations
    }

    /// The queues: they hold the window's loads and stores by age, the stores with the youngest roots of their
    /// addresses; and what loads have read and which stores are cleared, where loads may pass stores.
    pub fn lsq(&self) -> &Lsq
        ensures queues { StandFor result.now self.now.machine.window }
        ensures tracks { loads_pass self.now.desc ≡ true → Tracks result.now self.now.machine.window }
        ensures roots { HasAddressRoots self.now.machine.next_serial result.now.stores self.now.machine.window }
    {
        &self.lsq
    }

    /// The visibility point, lent to read.
    pub fn point(&self) -> &VisPoint
        ensures same { result.now ≡ self.now.point }
        ensures model { result.now.model ≡ self.now.desc.stt_model }
    {
        &self.point
    }

    /// The pair of youngest roots at a position.
    pub fn yrot_at(&self, i: u32) -> [Option<u64>; 2]
        requires { i < length self.now.machine.window }
        ensures { HasRoots self.now.machine.next_serial self.now.machine.window i result }
    {
        sources_at(&self.sources, i).roots
    }
}

//! The youngest entries go, as a squash or a violated load demands (`docs/machine.md`, "Resolve", "Clear").
ghost use Rattle.std.specs.Prelude.{◌≡◌};
ghost use Rattle.core_parts.specs.Dropped.{StopsBelow, count_from, cut_from};

use crate::parts::Parts;
use rename_taint::RenameTaint;
use squash::squash_after;

impl<R: RenameTaint> Parts<R> {
    /// Drops the entries from this serial on in all parts, and all fetched items; fetching goes on at this address, or
    /// nowhere. The answer is how many there were. An older entry stays, and the visibility point of a model that
    /// protects isn't past it.
    pub fn drop_from(&mut self, first: u64, next: Option<u32>) -> u32
        requires stops { StopsBelow first self.old.point self.old.machine.window }
        ensures dropped { result ≡ count_from first self.old.machine }
        ensures left { self.new ≡ record self.old { machine = cut_from first next self.old.machine } }
    {
        let items = self.fetch_unit.redirect(next);
        let entries = squash_after(
            first,
            &mut self.rob,
            &mut self.table,
            &mut self.stations,
            &mut self.lsq,
            &mut self.ports,
        );
        self.sources.truncate_back(self.rob.len() as usize);
        entries + items
    }
}

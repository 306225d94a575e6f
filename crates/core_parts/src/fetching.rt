//! Phase Fetch: the fetch unit's, with the code, the predictor, and history and stack of the parts.
ghost use Rattle.std.specs.Prelude.{◌≡◌};
ghost use Rattle.window_model.specs.inner.Row.{HasRoom, IsLonger, most_fetched, with_events};
ghost use Rattle.core_parts.specs.Described.{fetch_of};

use crate::parts::Parts;
use rename_taint::RenameTaint;
use window_model::Row;

impl<R: RenameTaint> Parts<R> {
    /// Phase Fetch of a cycle (`docs/machine.md`, "Fetch").
    pub fn fetch(&mut self, row: &mut Row)
        requires room { HasRoom most_fetched row.old }
        ensures machine { self.new ≡ record self.old { machine = (fetch_of self.old).machine } }
        ensures row { row.new ≡ with_events row.old (fetch_of self.old).events }
        ensures few { IsLonger most_fetched row.old row.new }
    {
        self.fetch_unit
            .fetch(&self.code, &self.predictor, &mut self.history, row);
    }
}

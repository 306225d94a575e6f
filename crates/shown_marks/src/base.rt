//! Whether the first operand of an entry tells an address or the time of a division (`docs/theorems.md`, "Secrets that
//! are loaded"), and whether it is marked.
use crate::seen::Seen;
use issue::Candidate;
use mark_words::any_byte;
use rob_ring::{Sources, sources_at};
use rv_types::Kind;
use stations::Part;
use transmit_gate::may_transmit;

impl<'a> Seen<'a> {
    ghost use Rattle.std.specs.Prelude.{◌≡◌, Some, slice_get, true};
    ghost use Rattle.window_model.specs.Ports.{AddressPort, part_may};
    ghost use Rattle.window_model.specs.Order.{is_store};
    ghost use Rattle.secret_marks.specs.Shows.{decides_as, operand_shows};
    ghost use Rattle.shown_marks.specs.State.{HasTurn, before_of, marks_before_of, marks_in};

    // What stands of the entry's sources at its position.
    fn sources_of(&self, candidate: &Candidate) -> &Sources
        requires turn { HasTurn self.now candidate.now }
        ensures { slice_get self.now.walk.sources.now.items candidate.now.position ≡ Some result.now }
    {
        sources_at(self.walk.sources, candidate.position)
    }

    // Whether a store's address part may issue: it hasn't issued, the store may show it, and its source is there; in
    // version 1 both sources are.
    fn address_may(&self, candidate: &Candidate) -> bool
        requires turn { HasTurn self.now candidate.now }
        requires store { is_store candidate.now.entry.now.item.kind ≡ true }
        ensures { result
            ≡ part_may AddressPort self.now.desc.now (before_of self.now candidate.now) candidate.now.entry.now }
    {
        if candidate.entry.addr_due.is_some() {
            return false;
        }
        if !self.point.may_show(self.desc, candidate.entry.serial) {
            return false;
        }
        if self.desc.stores_in_one() {
            return true;
        }
        self.stations.ready_part(candidate.station, Part::Address)
    }

    // Whether the first operand tells an address or the time of a division.
    fn decides(&self, candidate: &Candidate) -> bool
        requires turn { HasTurn self.now candidate.now }
        ensures { result ≡ decides_as candidate.now.entry.now.item.kind self.now.desc.now
            (before_of self.now candidate.now) candidate.now.entry.now }
    {
        match candidate.entry.item.kind {
            Kind::Load | Kind::Div => may_transmit(
                candidate.entry.item.kind,
                candidate.entry.serial,
                self.sources_of(candidate).roots,
                self.point,
                self.desc,
            ),
            Kind::Store => self.address_may(candidate),
            _ => false,
        }
    }

    /// Whether the first operand of the entry tells an address or the time of a division, and is marked.
    pub(crate) fn operand_shows(&self, candidate: &Candidate) -> bool
        requires turn { HasTurn self.now candidate.now }
        ensures { result ≡ operand_shows self.now.desc.now (marks_in self.now) (before_of self.now candidate.now)
            (marks_before_of self.now candidate.now) candidate.now.entry.now }
    {
        if !self.decides(candidate) {
            return false;
        }
        any_byte(self.walk.first_source(candidate.position, candidate.entry))
    }
}

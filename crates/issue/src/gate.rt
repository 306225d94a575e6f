//! Which entries may issue, and which are granted a port (`docs/machine.md`, "Issue").
use crate::candidate::Candidate;
use crate::seen::Seen;
use lsq::{Kept, LoadRequest, Pending};
use rob_ring::{Sources, sources_at};
use rv_effect::Effect;
use rv_types::Kind;
use transmit_gate::may_transmit;
use unit_ports::Ports;

impl<'a> Seen<'a> {
    ghost use Rattle.std.specs.Prelude.{◌≡◌, ◌&&◌, Some, false, slice_get, true};
    ghost use Rattle.rv_effect.specs.Seen.{isa_effect};
    ghost use Rattle.window_model.specs.MayIssue.{address_of, bytes_of, goes_behind};
    ghost use Rattle.window_model.specs.Order.{is_store};
    ghost use Rattle.window_model.specs.Around.{is_free};
    ghost use Rattle.window_model.specs.Delay.{may_show};
    ghost use Rattle.window_model.specs.Retire.{byte_count};
    ghost use Rattle.rv_types.specs.Memory.{load_fault};
    ghost use Rattle.rv_types.specs.Value.{bytes_in};
    ghost use Rattle.lsq.specs.Pending.{bytes_requested};
    ghost use Rattle.issue.specs.Ports.{LeftFor, besides, is_served};
    ghost use Rattle.issue.specs.Pending.{is_kept, lets_by, passes_here, pending_here, stores_keep};
    ghost use Rattle.issue.specs.State.{HasTurn, around_of, before_of, here};
    ghost use Rattle.issue.specs.Turns.{effect_here};

    /// What stands of the entry's sources at its position: their youngest roots, and the serials of their writers.
    pub(crate) fn sources_of(&self, candidate: &Candidate) -> Sources
        requires turn { HasTurn self.now candidate.now }
        ensures { slice_get self.now.sources.now.items candidate.now.position ≡ Some result }
    {
        *sources_at(self.sources, candidate.position)
    }

    // What a load asks for from its address on.
    #[inline(always)]
    fn request_at(&self, candidate: &Candidate, addr: u32) -> LoadRequest
        requires { addr ≡ address_of self.now.regs.now (before_of self.now candidate.now) candidate.now.entry.now }
        ensures addr { result.addr ≡ addr }
        ensures size { bytes_in result.width ≡ byte_count candidate.now.entry.now }
        ensures fault { result.fault ≡ load_fault self.now.ram.now addr (byte_count candidate.now.entry.now) }
        ensures bytes { bytes_requested result
            ≡ bytes_of (around_of self.now) (before_of self.now candidate.now) candidate.now.entry.now }
    {
        let width = candidate.entry.width();
        LoadRequest {
            addr,
            width,
            fault: self.ram.load_fault(addr, width.bytes()),
        }
    }

    /// What a load asks for, by what its instruction makes of its operands.
    #[inline(always)]
    pub(crate) fn load_request(&self, candidate: &Candidate, made: &Effect) -> LoadRequest
        requires effect { isa_effect made.now ≡ effect_here self.now candidate.now }
        ensures addr { result.addr ≡ made.now.addr }
        ensures size { bytes_in result.width ≡ byte_count candidate.now.entry.now }
        ensures fault { result.fault ≡ load_fault self.now.ram.now made.now.addr (byte_count candidate.now.entry.now) }
        ensures bytes { bytes_requested result
            ≡ bytes_of (around_of self.now) (before_of self.now candidate.now) candidate.now.entry.now }
    {
        self.request_at(candidate, made.addr)
    }

    // Whether the older stores let a load of this effect go, where none of them keeps it whatever its address. In
    // version 1 they do. In version 2 they do where each has both its parts, and else where each that lacks its data
    // has an untainted address and covers none of the load's bytes. The load, and the oldest store that lacks data for
    // some of its bytes, are put into `kept`, if there is such a store.
    fn goes(&self, candidate: &Candidate, made: &Effect, kept: &mut Option<Kept>) -> bool
        requires turn { HasTurn self.now candidate.now }
        requires open { stores_keep self.now candidate.now ≡ false }
        requires effect { isa_effect made.now ≡ effect_here self.now candidate.now }
        ensures { result ≡ here goes_behind self.now candidate.now }
    {
        if self.desc.stores_in_one() {
            return true;
        }
        if self.lsq.all_older_known(candidate.entry.serial) {
            return true;
        }
        let request = self.load_request(candidate, made);
        if self.awaits_data(candidate, &request, kept) {
            return false;
        }
        self.is_let(self.passes(candidate), &self.pending(candidate, &request))
    }

    // Whether a load passes stores of unknown address: there are bits of dependence, and its own isn't set.
    fn passes(&self, candidate: &Candidate) -> bool
        requires turn { HasTurn self.now candidate.now }
        ensures { result ≡ passes_here self.now candidate.now }
    {
        self.desc.loads_pass() && !self.dependence.waits(candidate.entry.item.pc)
    }

    // Whether a load is let go, by whether it passes stores of unknown address and by what it lacks of the older ones.
    fn is_let(&self, passes: bool, pending: &Pending) -> bool
        ensures { result ≡ lets_by passes self.now.point.now.serial pending.now }
    {
        (passes || !pending.address) && !pending.overlap && !self.point.tainted(pending.root)
    }

    // Whether a load waits for the data of an older store, by what it asks for. If so the two are put into `kept`.
    fn awaits_data(
        &self,
        candidate: &Candidate,
        request: &LoadRequest,
        kept: &mut Option<Kept>,
    ) -> bool
        requires bytes { bytes_requested request.now
            ≡ bytes_of (around_of self.now) (before_of self.now candidate.now) candidate.now.entry.now }
        ensures { result ≡ (pending_here self.now candidate.now).overlap }
    {
        let load = candidate.entry.serial;
        match self.lsq.keeper(load, request) {
            Some(keeper) => {
                *kept = Some(Kept { load, keeper });
                true
            }
            None => false,
        }
    }

    /// Whether the store that was last found to keep such a load keeps this one. It is a guess that spares a walk over
    /// the stores: where it isn't right the answer says nothing. In version 1 no load is kept for its bytes.
    #[inline(always)]
    pub(crate) fn is_still_kept(&self, candidate: &Candidate) -> bool
        requires turn { HasTurn self.now candidate.now }
        ensures { result ≡ true → besides self.now candidate.now ≡ false }
    {
        if self.desc.stores_in_one() {
            return false;
        }
        match candidate.entry.item.kind {
            Kind::Load => self.keeper_keeps(candidate),
            _ => false,
        }
    }

    // Whether the store that kept a load of this one's group last is in flight, and keeps it for want of its data.
    #[inline(always)]
    fn keeper_keeps(&self, candidate: &Candidate) -> bool
        requires turn { HasTurn self.now candidate.now }
        ensures { result ≡ true → (pending_here self.now candidate.now).overlap ≡ true }
    {
        let Some(keeper) = self.keepers.keeper(candidate.entry.serial) else {
            return false;
        };
        let Some(store) = self.lsq.store(&keeper) else {
            return false;
        };
        if store.stored.is_some() {
            return false;
        }
        let request = self.request_at(candidate, self.address(candidate));
        store.keeps(candidate.entry.serial, &request)
    }

    // What a load waits for in the older stores, by what it asks for.
    fn pending(&self, candidate: &Candidate, request: &LoadRequest) -> Pending
        requires bytes { bytes_requested request.now
            ≡ bytes_of (around_of self.now) (before_of self.now candidate.now) candidate.now.entry.now }
        ensures { result ≡ pending_here self.now candidate.now }
    {
        self.lsq.pending(candidate.entry.serial, request)
    }

    // Whether the older stores keep a load whatever its address: in version 1 where one lacks a part; in version 2
    // where one lacks its address, unless the load passes stores.
    fn stores_keep(&self, candidate: &Candidate) -> bool
        requires turn { HasTurn self.now candidate.now }
        ensures { result ≡ stores_keep self.now candidate.now }
    {
        if self.desc.stores_in_one() {
            return !self.lsq.all_older_known(candidate.entry.serial);
        }
        !self.passes(candidate) && self.lsq.awaits_address(candidate.entry.serial)
    }

    // Whether the entry is kept whatever its operands are: a load by the older stores, a division by a divider that
    // isn't free.
    fn is_kept(&self, candidate: &Candidate) -> bool
        requires turn { HasTurn self.now candidate.now }
        ensures { result ≡ is_kept self.now candidate.now }
    {
        match candidate.entry.item.kind {
            Kind::Load => self.stores_keep(candidate),
            Kind::Div => !self.is_free(),
            _ => false,
        }
    }

    /// Whether the entry may show its operands: the defence doesn't delay it, or it is visible.
    pub(crate) fn may_show(&self, candidate: &Candidate) -> bool
        requires turn { HasTurn self.now candidate.now }
        ensures { result ≡ may_show self.now.desc.now (before_of self.now candidate.now) }
    {
        self.point.may_show(self.desc, candidate.entry.serial)
    }

    // Whether the divider is free.
    fn is_free(&self) -> bool
        ensures { result ≡ is_free (around_of self.now) }
    {
        self.free_from <= self.cycle as u64
    }

    /// Whether an entry with this effect, which nothing keeps whatever its operands are, has what it asks for besides
    /// untainted operands that it may show: of a load, that older stores let it go. A load that lacks a store's data is
    /// put into `kept` with the store.
    pub(crate) fn has_besides(
        &self,
        candidate: &Candidate,
        made: &Effect,
        kept: &mut Option<Kept>,
    ) -> bool
        requires turn { HasTurn self.now candidate.now }
        requires open { is_kept self.now candidate.now ≡ false }
        requires effect { isa_effect made.now ≡ effect_here self.now candidate.now }
        ensures { result ≡ besides self.now candidate.now }
    {
        match candidate.entry.item.kind {
            Kind::Load => self.goes(candidate, made, kept),
            _ => true,
        }
    }

    /// Whether the entry, which is no store, may ask for its port: one is left, neither a tainted operand nor a defence
    /// that delays it holds it back, and nothing keeps it whatever its operands are. It is served then where it has
    /// what it asks for besides.
    pub(crate) fn may_ask(&self, candidate: &Candidate, ports: &Ports) -> bool
        requires turn { HasTurn self.now candidate.now }
        requires whole { is_store candidate.now.entry.now.item.kind ≡ false }
        requires left { LeftFor self.now candidate.now ports.now }
        ensures served { is_served self.now candidate.now ≡ (result && besides self.now candidate.now) }
        ensures open { result ≡ true → is_kept self.now candidate.now ≡ false }
    {
        let kind = candidate.entry.item.kind;
        if !ports.has(kind) {
            return false;
        }
        let serial = candidate.entry.serial;
        let roots = self.sources_of(candidate).roots;
        if !may_transmit(kind, serial, roots, self.point, self.desc) {
            return false;
        }
        !self.is_kept(candidate)
    }
}

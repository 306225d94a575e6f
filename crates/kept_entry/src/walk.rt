//! The stations, oldest first, up to the first whose entry the defence may keep.
ghost use Rattle.std.specs.Prelude.{◌≡◌};
ghost use Rattle.window_model.specs.Ready.{holds};

use crate::seen::Seen;
use core_cycle::Core;
use machine_desc::Defence;
use rename_taint::RenameTaint;
use rob_ring::Found;
use rv_types::Kind;
use transmit_gate::may_transmit;

// Whether the defence holds results back.
fn holds(defence: Defence) -> bool
    ensures { result ≡ holds defence }
{
    matches!(defence, Defence::Hold)
}

impl<'a> Seen<'a> {
    ghost use Rattle.std.specs.Prelude.{◌≡◌, ◌-◌, ◌<◌, ◌≤◌, ◌^◌, IfSome, None, length, true};
    ghost use Rattle.window_model.specs.Order.{before_at};
    ghost use Rattle.slot_reasons.specs.Kept.{oldest_kept, shows_as};
    ghost use Rattle.kept_entry.specs.State.{KeptAt, LooksAt, NextAsked, PassesTo, Stands, StandsAt};
    ghost use Rattle.kept_entry.specs.State.{TellsAsked, TellsWhole};

    // The first station whose entry isn't visible, found by halving, or how many there are where each is.
    fn first_hidden(&self) -> u32
        requires stands { Stands self.now }
        ensures within { result ≤ length self.now.stations.now.held }
        ensures passed { PassesTo self.now 0 result }
    {
        let mut low = 0;
        let mut high = self.stations.len();
        while low < high {
            let middle = low + (high - low) / 2;
            if self.point.visible(self.stations.serial(middle)) {
                low = middle + 1;
            } else {
                high = middle;
            }
        }
        low
    }

    // The station at which the walk begins. Where all are looked at, most may be visible; few are able.
    fn begins(&self) -> u32
        requires stands { Stands self.now }
        ensures within { result ≤ length self.now.stations.now.held }
        ensures passed { PassesTo self.now 0 result }
    {
        if holds(self.desc.stt_defence) {
            self.first_hidden()
        } else {
            0
        }
    }

    // The next station that is looked at, from one on: where no result is held back, one that is able.
    fn next(&self, from: u32) -> Option<u32>
        requires stands { Stands self.now }
        requires within { from ≤ length self.now.stations.now.held }
        ensures next { NextAsked self.now from result }
        ensures few { IfSome result (λ i. i < 2 ^ 32 - 1) }
    {
        if !holds(self.desc.stt_defence) {
            return self.stations.next_able(from);
        }
        if from < self.stations.len() {
            Some(from)
        } else {
            None
        }
    }

    /// Whether no entry is looked at: no result is held back, and no station is able. The walk needn't begin then.
    #[inline(always)]
    pub(crate) fn asks_nobody(&self) -> bool
        requires stands { Stands self.now }
        ensures { result ≡ true → None ≡ oldest_kept self.now.desc.now self.now.rob.now.entries }
    {
        if holds(self.desc.stt_defence) {
            return false;
        }
        match self.stations.next_able(0) {
            None => true,
            Some(_) => false,
        }
    }

    // The entry that waits at a station.
    fn found(&self, station: u32) -> Found<'_>
        requires stands { Stands self.now }
        requires within { station < length self.now.stations.now.held }
        ensures { StandsAt self.now station result }
    {
        match self.rob.find(self.stations.serial(station)) {
            Some(found) => found,
            None => unreachable!(),
        }
    }

    // Whether the defence lets the entry show those operands that tell an address or the time of a division.
    fn may_show<R: RenameTaint>(&self, core: &Core<R>, station: u32, found: &Found<'_>) -> bool
        requires stands { StandsAt self.now station found.now }
        requires core { LooksAt self.now core.now.machine }
        ensures { result ≡ shows_as found.now.entry.now.item.kind self.now.desc.now
            (before_at self.now.rob.now.entries found.now.position) found.now.entry.now }
    {
        match found.entry.item.kind {
            Kind::Load | Kind::Div => may_transmit(
                found.entry.item.kind,
                found.entry.serial,
                core.yrot(found.position),
                self.point,
                self.desc,
            ),
            Kind::Store => self.point.may_show(self.desc, found.entry.serial),
            _ => true,
        }
    }

    // Whether all that the entry at a station reads is there, but for what is held back.
    fn is_whole(&self, station: u32) -> bool
        requires stands { Stands self.now }
        requires within { station < length self.now.stations.now.held }
        ensures { TellsWhole self.now station result }
    {
        if self.stations.ready(station) {
            return true;
        }
        if !holds(self.desc.stt_defence) {
            return false;
        }
        self.has_operands(station, &self.found(station))
    }

    // Whether the defence may keep the entry at a station: it isn't visible, and all that it reads is there.
    fn is_asked(&self, station: u32) -> bool
        requires stands { Stands self.now }
        requires within { station < length self.now.stations.now.held }
        ensures { TellsAsked self.now station result }
    {
        if self.point.visible(self.stations.serial(station)) {
            return false;
        }
        self.is_whole(station)
    }

    // The serial of the entry at a station, if the defence keeps it.
    fn kept_at<R: RenameTaint>(&self, core: &Core<R>, station: u32) -> Option<u64>
        requires stands { Stands self.now }
        requires core { LooksAt self.now core.now.machine }
        requires within { station < length self.now.stations.now.held }
        ensures { KeptAt self.now station result }
    {
        let found = self.found(station);
        if !self.stations.ready(station) {
            return Some(found.entry.serial);
        }
        if self.may_show(core, station, &found) {
            return None;
        }
        Some(found.entry.serial)
    }

    /// The serial of the oldest entry that waits, isn't visible and has all that it reads, if the defence keeps it.
    pub(crate) fn oldest_kept<R: RenameTaint>(&self, core: &Core<R>) -> Option<u64>
        requires stands { Stands self.now }
        requires core { LooksAt self.now core.now.machine }
        ensures { result ≡ oldest_kept self.now.desc.now self.now.rob.now.entries }
    {
        let mut from = self.begins();
        while let Some(station) = self.next(from) {
            if self.is_asked(station) {
                return self.kept_at(core, station);
            }
            from = station + 1;
        }
        None
    }
}

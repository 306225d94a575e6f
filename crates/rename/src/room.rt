//! Whether an item can go into the window, as the parts tell it (`docs/machine.md`, "Rename").
ghost use Rattle.std.specs.Prelude.{◌≡◌};
ghost use Rattle.std.specs.List.{list_any};
ghost use Rattle.machine_desc.specs.declared.Desc.{Desc};
ghost use Rattle.window_model.specs.Rename.{at_once, fits, fits_as, is_call, CallAlone, calls};
ghost use Rattle.queue_laws.specs.Window.{StandFor};
ghost use Rattle.rename.specs.Fitting.{Counted};

use lsq::Lsq;
use machine_desc::Desc;
use rob_ring::RobRing;
use rv_types::Kind;
use stations::Stations;
use window_model::Item;

/// Whether the item can go into the window. Nothing is counted: stations and queues know how many they hold, and a call
/// stands alone.
pub(crate) fn fits(item: &Item, desc: &Desc, rob: &RobRing, stations: &Stations, lsq: &Lsq) -> bool
    requires call_alone { CallAlone rob.now.entries }
    requires counted { Counted desc.now rob.now.entries stations.now lsq.now }
    ensures { result ≡ fits desc.now rob.now.entries item.now }
{
    if rob.len() >= desc.core_rob {
        return false;
    }
    if has_call(rob) {
        return false;
    }
    if !has_place(item.kind, rob, lsq) {
        return false;
    }
    is_at_once(item.kind) || stations.free() > 0
}

/// Whether an item of this kind is done at once, and takes no station.
pub(crate) fn is_at_once(kind: Kind) -> bool
    ensures { result ≡ at_once kind }
{
    match kind {
        Kind::Call | Kind::Stop(_) => true,
        _ => false,
    }
}

// Whether there is a call in the window: then it is the one entry, of which only the kind is looked at.
fn has_call(rob: &RobRing) -> bool
    requires { CallAlone rob.now.entries }
    ensures { result ≡ list_any calls rob.now.entries }
{
    if rob.len() != 1 {
        return false;
    }
    is_call(rob.lend(0).item.kind)
}

// Whether an entry of this kind is a call.
fn is_call(kind: Kind) -> bool
    ensures { result ≡ is_call kind }
{
    kind == Kind::Call
}

// Room for a load among the loads, for a store among the stores, as every description with the queues' rooms has it. A
// call goes alone.
fn has_place(kind: Kind, rob: &RobRing, lsq: &Lsq) -> bool
    requires { StandFor lsq.now rob.now.entries }
    ensures { (d : Desc) → lsq.now.max_loads ≡ d.core_loads → lsq.now.max_stores ≡ d.core_stores
        → result ≡ fits_as kind d rob.now.entries }
{
    match kind {
        Kind::Load => lsq.has_load_room(),
        Kind::Store => lsq.has_store_room(),
        Kind::Call => rob.len() == 0,
        _ => true,
    }
}

//! The ports of a cycle, and the divider.
ghost use Rattle.std.specs.Prelude.{◌≡◌, ◌-◌, nat_lt, nat_le, Some};
ghost use Rattle.window_model.specs.Resolve.{freed_from};
ghost use Rattle.window_model.specs.Ports.{DataPort};
ghost use Rattle.unit_ports.specs.Ports.{begun_at, free_divider, left_at, opening, port_for, taken_at};
ghost use Rattle.unit_ports.specs.inner.Seen.{machine_port};

use crate::port::{Port, port_for};
use machine_desc::Desc;
use rv_types::Kind;
use std::marker::Model;
use window_model::Divider;

/// The ports that are left in a cycle, and the divider.
#[derive(Drop)]
pub struct Ports {
    /// How many arithmetic units there are.
    alus: u32,
    /// The cycle, as `begin` was told.
    cycle: u64,
    alu: u32,
    mul: u32,
    div: u32,
    /// For the address part of a store.
    address_part: u32,
    /// For the data part of a store.
    data_part: u32,
    load: u32,
    divider: Divider,
}

impl Model for Ports {
    ghost use Rattle.unit_ports.specs.Ports.{Ports};

    ghost Value = { Ports };

    ghost view = { λ p. record {
      alus = p.alus;
      cycle = p.cycle;
      alu = p.alu;
      mul = p.mul;
      div = p.div;
      address_part = p.address_part;
      data_part = p.data_part;
      load = p.load;
      divider = p.divider;
    } };
}

impl Ports {
    /// The ports of cycle 0, with a divider that is free and that no entry has used.
    pub fn new(desc: &Desc) -> Ports
        ensures { result ≡ opening desc.now }
    {
        Ports {
            alus: desc.units_alus,
            cycle: 0,
            alu: desc.units_alus,
            mul: 1,
            div: 1,
            address_part: 1,
            data_part: 1,
            load: 1,
            divider: free_divider(),
        }
    }

    /// Begins a cycle: all ports are left. The divider stays as it is.
    pub fn begin(&mut self, cycle: u64)
        ensures { self.new ≡ begun_at cycle self.old }
    {
        self.cycle = cycle;
        self.alu = self.alus;
        self.mul = 1;
        self.div = 1;
        self.address_part = 1;
        self.data_part = 1;
        self.load = 1;
    }

    /// Whether a port is left for an entry of this kind; for a store, whether that of its address part is.
    pub fn has(&self, kind: Kind) -> bool
        ensures { result ≡ nat_lt 0 (left_at (port_for kind) self.now) }
    {
        self.left(port_for(kind)) > 0
    }

    /// Takes a port for an entry of this kind; for a store, that of its address part. False exactly where none of that
    /// port is left, and nothing changes then.
    pub fn grant(&mut self, kind: Kind) -> bool
        ensures granted { result ≡ nat_lt 0 (left_at (port_for kind) self.old) }
        ensures left { self.new ≡ taken_at (port_for kind) self.old }
    {
        self.take(port_for(kind))
    }

    /// Whether the port of a store's data part is left. Kept for who looks at ports from outside, without taking one.
    pub fn has_data(&self) -> bool
        ensures { result ≡ nat_lt 0 (left_at DataPort self.now) }
    {
        self.left(Port::DataPart) > 0
    }

    /// Takes the port of a store's data part. False exactly where it is used, and nothing changes then.
    pub fn grant_data(&mut self) -> bool
        ensures granted { result ≡ nat_lt 0 (left_at DataPort self.old) }
        ensures left { self.new ≡ taken_at DataPort self.old }
    {
        self.take(Port::DataPart)
    }

    // How many are left of a port.
    fn left(&self, port: Port) -> u32
        ensures { result ≡ left_at (machine_port port) self.now }
    {
        match port {
            Port::Alu => self.alu,
            Port::Mul => self.mul,
            Port::Div => self.div,
            Port::AddressPart => self.address_part,
            Port::DataPart => self.data_part,
            Port::Load => self.load,
        }
    }

    // Takes one of a port, where one is left. Called and not built into its callers, which spares them a register.
    #[inline(never)]
    fn take(&mut self, port: Port) -> bool
        ensures taken { result ≡ nat_lt 0 (left_at (machine_port port) self.old) }
        ensures left { self.new ≡ taken_at (machine_port port) self.old }
    {
        match port {
            Port::Alu => take_one(&mut self.alu),
            Port::Mul => take_one(&mut self.mul),
            Port::Div => take_one(&mut self.div),
            Port::AddressPart => take_one(&mut self.address_part),
            Port::DataPart => take_one(&mut self.data_part),
            Port::Load => take_one(&mut self.load),
        }
    }

    /// The entry with this serial uses the divider, which is free again from a cycle on.
    pub fn divide(&mut self, until: u64, serial: u64)
        ensures { self.new ≡ record self.old { divider = record { free_from = until; user = Some serial } } }
    {
        self.divider = Divider {
            free_from: until,
            user: Some(serial),
        };
    }

    /// The divider: from when on it is free, and who uses it.
    pub fn divider(&self) -> Divider
        ensures { result ≡ self.now.divider }
    {
        self.divider
    }

    /// Whether the divider is free in this cycle. Kept for who looks at a core from outside.
    pub fn free_div(&self) -> bool
        ensures { result ≡ nat_le self.now.divider.free_from self.now.cycle }
    {
        self.divider.free_from <= self.cycle
    }

    /// Entries from this serial on are dropped: the divider is free again from cycle 0 on, with no user, where one of
    /// them was the last to use it (`docs/machine.md`, "Resolve").
    pub fn drop_from(&mut self, serial: u64)
        ensures { self.new ≡ record self.old { divider = freed_from serial self.old.divider } }
    {
        self.divider = freed_from(self.divider, serial);
    }
}

// A divider that is free, with no user.
fn free_divider() -> Divider
    ensures { result ≡ free_divider }
{
    Divider {
        free_from: 0,
        user: None,
    }
}

// The divider once entries from this serial on are gone.
fn freed_from(divider: Divider, serial: u64) -> Divider
    ensures { result ≡ freed_from serial divider }
{
    match divider.user {
        Some(user) if serial <= user => free_divider(),
        _ => divider,
    }
}

// Takes one, where one is left.
fn take_one(left: &mut u32) -> bool
    ensures taken { result ≡ nat_lt 0 left.old }
    ensures left { left.new ≡ left.old - 1 }
{
    if *left == 0 {
        return false;
    }
    *left -= 1;
    true
}

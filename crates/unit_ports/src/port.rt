//! The port at which an entry begins to execute.
ghost use Rattle.std.specs.Prelude.{◌≡◌};
ghost use Rattle.unit_ports.specs.Ports.{port_for};
ghost use Rattle.unit_ports.specs.inner.Seen.{machine_port};

use rv_types::Kind;

/// A port, at which entries of some kinds begin to execute or a part of a store issues.
#[derive(Clone, Copy)]
pub(crate) enum Port {
    Alu,
    Mul,
    Div,
    /// For the address part of a store.
    AddressPart,
    /// For the data part of a store.
    DataPart,
    Load,
}

/// The port that an entry of this kind asks for; a store, that of its address part.
pub(crate) fn port_for(kind: Kind) -> Port
    ensures { machine_port result ≡ port_for kind }
{
    match kind {
        Kind::Mul => Port::Mul,
        Kind::Div => Port::Div,
        Kind::Store => Port::AddressPart,
        Kind::Load => Port::Load,
        _ => Port::Alu,
    }
}

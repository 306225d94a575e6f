//! The gate at Issue: what may not issue because it would tell of a secret, or of what may be one.
//!
//! Which line a load accesses shows in the cache, and how long a division takes shows in time. So a load waits while
//! its base is tainted, and a division while an operand is; under the defence `delay` each waits until it is visible,
//! too. Anything else that issues in one piece tells nothing by its issue; a store's address part asks the point by
//! itself.
//!
//! Rules: `visibility/specs/Gate.antt`; `docs/machine.md`, "Issue".
//!
//! Promises: the answer is no exactly for a load whose first source and a division one of whose sources has a root that
//! isn't visible, and under `delay` for a load or division that the point hasn't reached.
//!
//! Clauses: `may_transmit`.
#![tactic(auto)]

ghost use Rattle.std.specs.Prelude.{◌≡◌};
ghost use Rattle.visibility.specs.Gate.{may_transmit};

use machine_desc::Desc;
use rv_types::Kind;
use visibility::VisPoint;

/// Whether taint and the defence let an entry of this kind and serial issue, by the youngest roots of its first and
/// second source, in the machine of a description. A store's address part asks [`VisPoint::may_show`] by itself. It
/// takes constant time.
pub fn may_transmit(
    kind: Kind,
    serial: u64,
    roots: [Option<u64>; 2],
    point: &VisPoint,
    desc: &Desc,
) -> bool
    ensures { result ≡ may_transmit kind desc.now point.now.serial serial roots }
{
    let [first, second] = roots;
    match kind {
        Kind::Load => !point.tainted(first) && point.may_show(desc, serial),
        Kind::Div => {
            !point.tainted(first) && !point.tainted(second) && point.may_show(desc, serial)
        }
        _ => true,
    }
}

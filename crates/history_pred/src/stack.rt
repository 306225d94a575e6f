//! The addresses of a checkpoint, as a stack.
ghost use Rattle.std.specs.Prelude.{◌≡◌, ◌≤◌, ◌+◌, ◌∷◌, drop, length, take};
ghost use Rattle.window_model.specs.History.{after_pop, after_push, stack, with_stack, youngest};

use window_model::{Checkpoint, RETURNS_MAX};

// The addresses on the stack, youngest first.
fn stack(checkpoint: &Checkpoint) -> &[u32]
    ensures value { result.now ≡ stack checkpoint.now }
    ensures few { length result.now ≤ 16 }
{
    &checkpoint.addresses[..(checkpoint.depth as usize).min(RETURNS_MAX)]
}

// The checkpoint with these addresses on its stack.
fn with_stack(checkpoint: &Checkpoint, addresses: &[u32]) -> Checkpoint
    requires { length addresses.now ≤ 16 }
    ensures { result ≡ with_stack addresses.now checkpoint.now }
{
    let mut places = [0u32; RETURNS_MAX];
    places[..addresses.len()].copy_from_slice(addresses);
    Checkpoint {
        history: checkpoint.history,
        depth: addresses.len() as u32,
        addresses: places,
    }
}

// The youngest address, None where there is none.
pub(crate) fn youngest(checkpoint: &Checkpoint) -> Option<u32>
    ensures { result ≡ youngest (stack checkpoint.now) }
{
    stack(checkpoint).first().copied()
}

// The checkpoint without its youngest address.
pub(crate) fn popped(checkpoint: &Checkpoint) -> Checkpoint
    ensures { result ≡ after_pop checkpoint.now }
{
    with_stack(checkpoint, all_but_first(stack(checkpoint)))
}

// The addresses but for the first, which is the youngest.
fn all_but_first(addresses: &[u32]) -> &[u32]
    ensures { result.now ≡ drop 1 addresses.now }
{
    match addresses {
        [] => addresses,
        [_, older @ ..] => older,
    }
}

// The checkpoint with one address more, on a stack of at most so many.
pub(crate) fn pushed(checkpoint: &Checkpoint, address: u32, most: u32) -> Checkpoint
    requires { most ≤ 16 }
    ensures { result ≡ with_stack (take most (address ∷ stack checkpoint.now)) checkpoint.now }
{
    let older = stack(checkpoint);
    let all = added(address, older);
    with_stack(checkpoint, &all[..(older.len() + 1).min(most as usize)])
}

// An address, and behind it the others.
fn added(address: u32, older: &[u32]) -> [u32; RETURNS_MAX + 1]
    requires { length older.now ≤ 16 }
    ensures { take (length older.now + 1) result ≡ address ∷ older.now }
{
    let mut all = [0u32; RETURNS_MAX + 1];
    all[0] = address;
    all[1..older.len() + 1].copy_from_slice(older);
    all
}

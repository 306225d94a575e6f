//! Whether two memories agree on what a path loads. It takes no memory.
ghost use Rattle.std.specs.Prelude.{◌≡◌, ◌↔◌, ◌-◌, IsTrue, All, length};
ghost use Rattle.rv_types.specs.Memory.{Agree, range};
ghost use Rattle.rv_types.specs.Path.{reads};
ghost use Rattle.elf_loader.specs.inner.Code.{word_at};
ghost use Rattle.window_model.specs.Path.{path};
ghost use Rattle.pair_run.specs.inner.Loaded.{StartsAgree, SameByte, ends_path};
ghost use Rattle.rv_types.specs.Isa.{start};

use crate::starting::Start;
use byte_ram::{Ram, byte_or_zero};
use isa_step::{Isa, Reached, Stepped};
use machine_desc::SttModel;
use rv_types::{Cause, Piece};

// Whether these bytes, from the memory's first address on, have the memory's byte at an address.
fn same_byte(one: &Ram, two: &[u8], addr: u64) -> bool
    ensures { IsTrue result ↔ SameByte one.now two.now addr }
{
    let place = addr.saturating_sub(one.base() as u64) as usize;
    byte_or_zero(two, place) == byte_or_zero(one.bytes(), place)
}

// Whether these bytes, from the memory's first address on, have the memory's byte at each of so many addresses from one
// on.
fn same_bytes(one: &Ram, two: &[u8], from: u32, len: u32) -> bool
    ensures { IsTrue result ↔ All (SameByte one.now two.now) (range from len) }
{
    for place in 0..len {
        if !same_byte(one, two, from as u64 + place as u64) {
            return false;
        }
    }
    true
}

// Whether a step that passes faults over ends the path of a model.
fn ends_path(model: SttModel, stepped: Stepped, passed: Option<Cause>) -> bool
    ensures { result ≡ ends_path model stepped passed }
{
    match stepped {
        Stepped::Next => match model {
            SttModel::Spectre | SttModel::Off => false,
            SttModel::Futuristic => passed.is_some(),
        },
        Stepped::Exit(_) | Stepped::Trap(_) => true,
    }
}

// Whether these bytes, from the memory's first address on, have the memory's byte at each address that a model's path
// loads from, in so many steps from a state. The state goes on as far as that takes.
fn loads_agree(state: &mut Isa, model: SttModel, one: &Ram, two: &[u8], steps: u64) -> bool
    ensures { IsTrue result
        ↔ All (SameByte one.now two.now) (reads (path model) (word_at state.old.code) state.old.hart steps) }
{
    let mut piece = Piece::new();
    let mut read = Reached {
        from: 0,
        len: 0,
        passed: None,
    };
    for _done in 0..steps {
        let stepped = state.pass(&mut piece, &mut read);
        if !same_bytes(one, two, read.from, read.len) {
            return false;
        }
        if ends_path(model, stepped, read.passed) {
            return true;
        }
    }
    true
}

// Whether a memory and a second one at its place, with one rule for addresses and these bytes, agree on each byte that
// a model's path loads in so many steps from a state. The state goes on as far as that takes.
fn memories_agree(state: &mut Isa, model: SttModel, one: &Ram, two: &[u8], steps: u64) -> bool
    requires { length two.now ≡ length one.now.bytes }
    ensures { IsTrue result ↔ Agree one.now (record one.now { bytes = two.now })
        (reads (path model) (word_at state.old.code) state.old.hart steps) }
{
    loads_agree(state, model, one, two, steps)
}

/// Whether two images in memories of one place are to be told apart by nothing that a model's path through the code of
/// both loads: they have one code, one entry and one rule for addresses, and their memories agree on each byte that the
/// path loads in so many steps from where the first begins. The state goes on as far as that takes.
pub(crate) fn agree_for(
    state: &mut Isa,
    model: SttModel,
    same_code: bool,
    one: &Start,
    two: &Start,
    steps: u64,
) -> bool
    requires base { two.now.ram.base ≡ one.now.ram.base }
    requires size { length two.now.ram.bytes ≡ length one.now.ram.bytes }
    requires starts { state.old.hart ≡ start one.now.entry one.now.ram }
    ensures { IsTrue result ↔ StartsAgree model same_code (word_at state.old.code) one.now two.now steps }
{
    if !same_code {
        return false;
    }
    if two.entry != one.entry {
        return false;
    }
    if two.ram.misaligned() != one.ram.misaligned() {
        return false;
    }
    memories_agree(state, model, &one.ram, two.ram.bytes(), steps)
}

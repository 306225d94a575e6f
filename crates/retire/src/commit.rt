//! What a head that retires does to memory, the registers and the pc, and what is told of it (`docs/machine.md`,
//! "Retire").
ghost use Rattle.std.specs.Prelude.{◌≡◌, ◌≤◌, ◌+◌, ◌^◌, [], None, length, map};
ghost use Rattle.rv_types.specs.Isa.{with_reg};
ghost use Rattle.rv_types.specs.Memory.{store_fault, with_bytes};
ghost use Rattle.rv_types.specs.Regs.{writes_of};
ghost use Rattle.rv_types.specs.Word.{to_le};
ghost use Rattle.rv_types.specs.declared.Kind.TheVariants.{Store};
ghost use Rattle.machine_desc.specs.declared.Desc.{Desc};
ghost use Rattle.cache_tags.specs.Sets.{Cache};
ghost use Rattle.window_model.specs.Order.{value_of};
ghost use Rattle.window_model.specs.Resolve.{next_of};
ghost use Rattle.window_model.specs.Retire.{addr_of, lines_in, stored_of, byte_count};
ghost use Rattle.window_model.specs.inner.Row.{HasRoom, with_events};
ghost use Rattle.window_model.specs.Shape.{SameShape};
ghost use Rattle.retire.specs.Parts.{IsLeft, PrintsHead, TellsHead, head_retires, head_told, line_told, lines_moved, with_touched};
ghost use Rattle.retire.specs.Turn.{end_of};

use byte_ram::Ram;
use cache_tags::Tags;
use machine_desc::Desc;
use rv_effect::{call, write_reg};
use rv_types::{End, Kind, Piece, REGISTERS, writes_of};
use window_model::{Entry, Event, Row, lines_of};

/// The head takes effect on memory, the registers and the pc, and a call on the piece. Answers how it ends the run,
/// None where the run goes on. What it leaves is what the definition leaves of every machine with this memory, these
/// registers and this pc, under every description and with every cache.
pub(crate) fn commit(
    head: &Entry,
    ram: &mut Ram,
    regs: &mut [u32; REGISTERS],
    pc: &mut u32,
    piece: &mut Piece,
) -> Option<End>
    requires empty { piece.old ≡ [] }
    requires inside { head.now.item.kind ≡ Store
        → store_fault ram.old (addr_of head.now.outcome) (byte_count head.now) ≡ None }
    ensures state { (d : Desc) (tags : Cache) → IsLeft (head_retires d head.now tags ram.old regs.old pc.old)
        (lines_moved head.now.item.kind d head.now tags) ram.new regs.new pc.new result }
    ensures told { (d : Desc) (tags : Cache) → TellsHead (head_retires d head.now tags ram.old regs.old pc.old)
        (head_told head.now.item.kind d tags head.now (length piece.new)) }
    ensures piece { (d : Desc) (tags : Cache)
        → PrintsHead (head_retires d head.now tags ram.old regs.old pc.old) piece.new }
    ensures shape { SameShape ram.old ram.new }
    ensures within { head.now.item.kind ≡ Store → addr_of head.now.outcome + byte_count head.now ≤ 2 ^ 32 }
{
    match head.item.kind {
        Kind::Call => end_of(call(pc, regs, ram, piece)),
        Kind::Store => {
            write_store(ram, head);
            commit_value(head, regs, pc);
            None
        }
        _ => {
            commit_value(head, regs, pc);
            None
        }
    }
}

// The head's register is written, if it has one, and the next one's address follows.
fn commit_value(head: &Entry, regs: &mut [u32; REGISTERS], pc: &mut u32)
    ensures regs { regs.new ≡ with_reg regs.old (writes_of head.now.item.instr) (value_of head.now.outcome) }
    ensures pc { pc.new ≡ next_of head.now.outcome }
{
    write_reg(regs, writes_of(&head.item.instr), head.value());
    *pc = head.next();
}

// A store's bytes are written. They all lie in memory, which ends at 2^32 at the latest.
fn write_store(ram: &mut Ram, store: &Entry)
    requires inside { store_fault ram.old (addr_of store.now.outcome) (byte_count store.now) ≡ None }
    ensures written { ram.new
        ≡ with_bytes ram.old (addr_of store.now.outcome) (to_le (byte_count store.now) (stored_of store.now.outcome)) }
    ensures within { addr_of store.now.outcome + byte_count store.now ≤ 2 ^ 32 }
{
    // Asked for its clauses alone: memory's end bounds the sum in the last one above.
    let _end = ram.size();
    let _ = ram.put(store.addr(), store.width(), store.stored());
}

// How a call ends the run, if it exits with a value.
fn end_of(exit: Option<u32>) -> Option<End>
    ensures { result ≡ end_of exit }
{
    match exit {
        Some(value) => Some(End::Exit(value)),
        None => None,
    }
}

/// The row tells that the head retires, and with how many bytes in the piece, if it is a call. Each line of a store
/// moves to the front of its set where the cache has it, the lower first, and the row tells of that too. It asks that
/// the cache has the description's sets and lines.
pub(crate) fn tell(head: &Entry, piece: &Piece, desc: &Desc, tags: &mut Tags, row: &mut Row)
    requires room { HasRoom
        (length (head_told head.now.item.kind desc.now tags.old head.now (length piece.now))) row.old }
    requires sets { tags.old.desc.cache_sets ≡ desc.now.cache_sets }
    requires line { tags.old.desc.cache_line ≡ desc.now.cache_line }
    requires within { head.now.item.kind ≡ Store → addr_of head.now.outcome + byte_count head.now ≤ 2 ^ 32 }
    ensures tags { tags.new ≡ lines_moved head.now.item.kind desc.now head.now tags.old }
    ensures row { row.new ≡ with_events row.old
        (head_told head.now.item.kind desc.now tags.old head.now (length piece.now)) }
    ensures desc { tags.new.desc ≡ tags.old.desc }
{
    row.push(Event::Ret(head.serial));
    match head.item.kind {
        Kind::Store => tell_store(head, desc, tags, row),
        Kind::Call => row.push(Event::Call(head.serial, piece.as_slice().len() as u32)),
        _ => {}
    }
}

// The row tells of each line of a store, and each moves to the front of its set, where the cache has it.
fn tell_store(store: &Entry, desc: &Desc, tags: &mut Tags, row: &mut Row)
    requires room { HasRoom (length (lines_in desc.now store.now)) row.old }
    requires sets { tags.old.desc.cache_sets ≡ desc.now.cache_sets }
    requires line { tags.old.desc.cache_line ≡ desc.now.cache_line }
    requires within { addr_of store.now.outcome + byte_count store.now ≤ 2 ^ 32 }
    ensures tags { tags.new ≡ with_touched desc.now (lines_in desc.now store.now) tags.old }
    ensures row { row.new ≡ with_events row.old
        (map (line_told desc.now tags.old.sets store.now) (lines_in desc.now store.now)) }
{
    let lines = lines_of(desc, store.addr(), store.bytes());
    tell_lines(store, lines.as_slice(), tags, row);
    move_lines(lines.as_slice(), tags);
}

// The row tells of each of a store's lines whether the cache has it.
fn tell_lines(store: &Entry, lines: &[u32], tags: &Tags, row: &mut Row)
    requires room { HasRoom (length lines.now) row.old }
    ensures { row.new ≡ with_events row.old (map (line_told tags.now.desc tags.now.sets store.now) lines.now) }
{
    for line in lines {
        row.push(Event::St(store.serial, *line, tags.holds(*line)));
    }
}

// Moves each of a store's lines to the front of its set, where the cache has it.
fn move_lines(lines: &[u32], tags: &mut Tags)
    ensures { tags.new ≡ with_touched tags.old.desc lines.now tags.old }
{
    for line in lines {
        tags.touch(*line);
    }
}

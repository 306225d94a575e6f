//! The marks of an entry, by its position.
ghost use Rattle.std.specs.Prelude.{◌≡◌, ◌<◌, length, slice_get, slice_set, Some};

use circular_buffer::HeapCircularBuffer;
use secret_marks::EntryMarks;

/// Lends the marks of the entry at a position.
pub(crate) fn marks_at(marks: &HeapCircularBuffer<EntryMarks>, i: u32) -> &EntryMarks
    requires { i < length marks.now.items }
    ensures { slice_get marks.now.items i ≡ Some result.now }
{
    marks.get(i as usize).unwrap()
}

/// Puts marks in the place of those at a position.
pub(crate) fn put_marks(marks: &mut HeapCircularBuffer<EntryMarks>, i: u32, new: EntryMarks)
    requires { i < length marks.old.items }
    ensures { marks.new ≡ record marks.old { items = slice_set marks.old.items i new } }
{
    if let Some(place) = marks.get_mut(i as usize) {
        *place = new;
    }
}

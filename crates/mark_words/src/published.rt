//! What is published loses its marks.
ghost use Rattle.std.specs.Prelude.{◌≡◌, ◌≢◌, ◌+◌, ◌++◌, ◌≤◌, [], length, take, drop, replicate, false, if◌then◌else◌};
ghost use Rattle.secret_marks.specs.Published.{unmarked_at};
ghost use Rattle.secret_marks.specs.Streams.{public_in};

use secret_marks::PublicStreams;

// Whether a stream is public.
fn is_public(public: PublicStreams, stream: u32) -> bool
    ensures { result ≡ public_in public stream }
{
    match stream {
        1 => public.first,
        2 => public.second,
        _ => false,
    }
}

// Unmarks so many bytes of memory, from a position on.
fn unmark(bytes: &mut Vec<bool>, at: usize, count: usize)
    requires inside { at + count ≤ length bytes.old.items }
    ensures marks { bytes.new.items
        ≡ take at bytes.old.items ++ replicate count false ++ drop (at + count) bytes.old.items }
    ensures memory { length bytes.new.items ≡ length bytes.old.items }
{
    bytes[at..at + count].fill(false);
}

// Unmarks the bytes of a piece that memory has from a position on.
fn unmark_piece(bytes: &mut Vec<bool>, at: u32, piece: &[u8])
    requires inside { piece.now ≢ [] → at + length piece.now ≤ length bytes.old.items }
    ensures marks { bytes.new.items ≡ unmarked_at at piece.now bytes.old.items }
    ensures memory { length bytes.new.items ≡ length bytes.old.items }
{
    match piece.first() {
        None => {}
        Some(_) => unmark(bytes, at as usize, piece.len()),
    }
}

/// Unmarks the bytes of a piece that memory has from a position on, where its stream is public.
#[inline(always)]
pub fn publish(bytes: &mut Vec<bool>, public: PublicStreams, stream: u32, at: u32, piece: &[u8])
    requires inside { piece.now ≢ [] → at + length piece.now ≤ length bytes.old.items }
    ensures bytes { bytes.new.items
        ≡ unmarked_at at (if public_in public stream then piece.now else []) bytes.old.items }
    ensures memory { length bytes.new.items ≡ length bytes.old.items }
{
    if piece.is_empty() {
        return;
    }
    if is_public(public, stream) {
        unmark_piece(bytes, at, piece);
    }
}

/// How many bytes of a piece are published: all of them where its stream is public, else none.
#[inline(always)]
pub fn count_published(public: PublicStreams, stream: u32, piece: &[u8]) -> u64
    ensures value { result ≡ length (if public_in public stream then piece.now else []) }
    ensures most { result ≤ length piece.now }
{
    if piece.is_empty() {
        return 0;
    }
    if is_public(public, stream) {
        piece.len() as u64
    } else {
        0
    }
}

//! The texts of events (`docs/formats.md`, "The trace").
//!
//! An event is written in few pieces: its name with the blank before it and the colon behind, and each number with what
//! stands between. Each function writes on a draft from the place `at` on and answers the place behind: the place where
//! the text goes on is handed along, and kept nowhere. What writes is inlined where the name is known, and a name is an
//! array, so that fixed texts cost no call. Of an event only those parts are read that its text tells.
ghost use Rattle.std.specs.Prelude.{◌≡◌, ◌≤◌, ◌+◌, ◌++◌, take, codes, decimal};
ghost use Rattle.line_text.specs.Digits.{hex8};
ghost use Rattle.trace_text.specs.TraceText.{and_number, and_address, way_text, found_text, look_text, event_text};

use line_text::{Draft, LINE_MAX};
use window_model::{Event, Look, Way};

/// The bytes of the longest name with a blank before it and a colon behind: `fill`, `done`, `call`.
const NAME: usize = 6;

/// The bytes of the longest serial, of 20 digits.
const SERIAL: usize = 20;

/// The bytes of the longest number of 32 bits.
const NUMBER: usize = 10;

/// The bytes of an address.
const ADDRESS: usize = 8;

/// The bytes of a colon and a letter.
const LETTER: usize = 2;

/// The most bytes of an event's text with a blank before it: that of a call has a name, a serial, a colon and a number.
pub(crate) const EVENT_MAX: usize = NAME + SERIAL + 1 + NUMBER;

// A colon and a number.
#[inline(always)]
fn add_number(draft: &mut Draft, at: usize, number: u32) -> usize
    requires { at + 1 + NUMBER ≤ LINE_MAX }
    ensures text { take result draft.new ≡ take at draft.old ++ and_number number }
    ensures short { result ≤ at + 1 + NUMBER }
{
    let behind = draft.put(at, *b":");
    draft.put_decimal_word(behind, number)
}

// A colon and an address.
#[inline(always)]
fn add_address(draft: &mut Draft, at: usize, addr: u32) -> usize
    requires { at + 1 + ADDRESS ≤ LINE_MAX }
    ensures text { take result draft.new ≡ take at draft.old ++ and_address addr }
    ensures short { result ≤ at + 1 + ADDRESS }
{
    let behind = draft.put(at, *b":");
    draft.put_hex8(behind, addr)
}

// The name of an event, and a serial.
#[inline(always)]
fn add_of<const N: usize>(draft: &mut Draft, at: usize, name: [u8; N], serial: u64) -> usize
    requires { at + (N + SERIAL) ≤ LINE_MAX }
    ensures text { take result draft.new ≡ take at draft.old ++ (name.entry ++ decimal serial) }
    ensures short { result ≤ at + (N + SERIAL) }
{
    let behind = draft.put(at, name);
    draft.put_decimal(behind, serial)
}

// The name of an event, and a number.
#[inline(always)]
fn add_count<const N: usize>(draft: &mut Draft, at: usize, name: [u8; N], count: u32) -> usize
    requires { at + (N + NUMBER) ≤ LINE_MAX }
    ensures text { take result draft.new ≡ take at draft.old ++ (name.entry ++ decimal count) }
    ensures short { result ≤ at + (N + NUMBER) }
{
    let behind = draft.put(at, name);
    draft.put_decimal_word(behind, count)
}

// The name of an event, and an address.
#[inline(always)]
fn add_at<const N: usize>(draft: &mut Draft, at: usize, name: [u8; N], addr: u32) -> usize
    requires { at + (N + ADDRESS) ≤ LINE_MAX }
    ensures text { take result draft.new ≡ take at draft.old ++ (name.entry ++ hex8 addr) }
    ensures short { result ≤ at + (N + ADDRESS) }
{
    let behind = draft.put(at, name);
    draft.put_hex8(behind, addr)
}

// The name of an event, a serial and an address.
#[inline(always)]
fn add_of_at<const N: usize>(
    draft: &mut Draft,
    at: usize,
    name: [u8; N],
    serial: u64,
    addr: u32,
) -> usize
    requires { at + (N + SERIAL + 1 + ADDRESS) ≤ LINE_MAX }
    ensures text { take result draft.new ≡ take at draft.old ++ (name.entry ++ decimal serial ++ and_address addr) }
    ensures short { result ≤ at + (N + SERIAL + 1 + ADDRESS) }
{
    let behind = add_of(draft, at, name, serial);
    add_address(draft, behind, addr)
}

// The name of an event, a serial and a number.
#[inline(always)]
fn add_of_count<const N: usize>(
    draft: &mut Draft,
    at: usize,
    name: [u8; N],
    serial: u64,
    count: u32,
) -> usize
    requires { at + (N + SERIAL + 1 + NUMBER) ≤ LINE_MAX }
    ensures text { take result draft.new ≡ take at draft.old ++ (name.entry ++ decimal serial ++ and_number count) }
    ensures short { result ≤ at + (N + SERIAL + 1 + NUMBER) }
{
    let behind = add_of(draft, at, name, serial);
    add_number(draft, behind, count)
}

// What a place of a table holds now: its name, its index and its value.
#[inline(always)]
fn add_place<const N: usize>(
    draft: &mut Draft,
    at: usize,
    name: [u8; N],
    index: u32,
    value: u8,
) -> usize
    requires { at + (N + NUMBER + 1 + NUMBER) ≤ LINE_MAX }
    ensures text { take result draft.new ≡ take at draft.old ++ (name.entry ++ decimal index ++ and_number value) }
    ensures short { result ≤ at + (N + NUMBER + 1 + NUMBER) }
{
    let behind = add_count(draft, at, name, index);
    add_number(draft, behind, value as u32)
}

// A target of the table of jump targets: its name, its index and its address.
#[inline(always)]
fn add_target(draft: &mut Draft, at: usize, index: u32, target: u32) -> usize
    requires { at + (NAME + NUMBER + 1 + ADDRESS) ≤ LINE_MAX }
    ensures text { take result draft.new ≡ take at draft.old ++ (codes " bt:" ++ decimal index ++ and_address target) }
    ensures short { result ≤ at + (NAME + NUMBER + 1 + ADDRESS) }
{
    let behind = add_count(draft, at, *b" bt:", index);
    add_address(draft, behind, target)
}

fn way_text(way: Way) -> [u8; LETTER]
    ensures { result ≡ way_text way }
{
    match way {
        Way::Taken => *b":T",
        Way::NotTaken => *b":N",
        Way::Jump => *b":J",
    }
}

fn found_text(found: bool) -> [u8; LETTER]
    ensures { result ≡ found_text found }
{
    if found { *b":h" } else { *b":m" }
}

fn look_text(look: Look) -> [u8; LETTER]
    ensures { result ≡ look_text look }
{
    match look {
        Look::Hit => *b":h",
        Look::Miss => *b":m",
        Look::Join => *b":j",
        Look::Second => *b":2",
    }
}

// The name of an event, a serial and one more text.
#[inline(always)]
fn add_of_text<const N: usize>(
    draft: &mut Draft,
    at: usize,
    name: [u8; N],
    serial: u64,
    text: [u8; LETTER],
) -> usize
    requires { at + (N + SERIAL + LETTER) ≤ LINE_MAX }
    ensures text { take result draft.new ≡ take at draft.old ++ (name.entry ++ decimal serial ++ text) }
    ensures short { result ≤ at + (N + SERIAL + LETTER) }
{
    let behind = add_of(draft, at, name, serial);
    draft.put(behind, text)
}

// The name of an event, an address and one more text.
#[inline(always)]
fn add_at_text<const N: usize>(
    draft: &mut Draft,
    at: usize,
    name: [u8; N],
    addr: u32,
    text: [u8; LETTER],
) -> usize
    requires { at + (N + ADDRESS + LETTER) ≤ LINE_MAX }
    ensures text { take result draft.new ≡ take at draft.old ++ (name.entry ++ hex8 addr ++ text) }
    ensures short { result ≤ at + (N + ADDRESS + LETTER) }
{
    let behind = add_at(draft, at, name, addr);
    draft.put(behind, text)
}

// The name of an event, a serial, an address and one more text.
#[inline(always)]
fn add_of_at_text<const N: usize>(
    draft: &mut Draft,
    at: usize,
    name: [u8; N],
    serial: u64,
    addr: u32,
    text: [u8; LETTER],
) -> usize
    requires { at + (N + SERIAL + 1 + ADDRESS + LETTER) ≤ LINE_MAX }
    ensures text { take result draft.new
        ≡ take at draft.old ++ (name.entry ++ decimal serial ++ and_address addr ++ text) }
    ensures short { result ≤ at + (N + SERIAL + 1 + ADDRESS + LETTER) }
{
    let behind = add_of_at(draft, at, name, serial, addr);
    draft.put(behind, text)
}

/// Writes a blank and the text of an event.
#[tactic(auto, unfolding(crate::specs::TraceText::event_text))]
pub(crate) fn add_event(draft: &mut Draft, at: usize, event: &Event) -> usize
    requires { at + EVENT_MAX ≤ LINE_MAX }
    ensures text { take result draft.new ≡ take at draft.old ++ (codes " " ++ event_text event.now) }
    ensures short { result ≤ at + EVENT_MAX }
{
    match *event {
        Event::Fill(addr) => add_at(draft, at, *b" fill:", addr),
        Event::Done(serial) => add_of(draft, at, *b" done:", serial),
        Event::Res(serial, way) => add_of_text(draft, at, *b" res:", serial, way_text(way)),
        Event::Bp(index, value) => add_place(draft, at, *b" bp:", index, value),
        Event::Bt(index, target) => add_target(draft, at, index, target),
        Event::Sq(count) => add_count(draft, at, *b" sq:", count),
        Event::Clr(serial) => add_of(draft, at, *b" clr:", serial),
        Event::Vio(serial) => add_of(draft, at, *b" vio:", serial),
        Event::Dp(index, value) => add_place(draft, at, *b" dp:", index, value),
        Event::Ret(serial) => add_of(draft, at, *b" ret:", serial),
        Event::St(serial, addr, found) => add_of_at_text(
            draft,
            at,
            *b" st:",
            serial,
            addr,
            found_text(found),
        ),
        Event::Call(serial, count) => add_of_count(draft, at, *b" call:", serial, count),
        Event::Alu(serial) => add_of(draft, at, *b" alu:", serial),
        Event::Mul(serial) => add_of(draft, at, *b" mul:", serial),
        Event::Div(serial, time) => add_of_count(draft, at, *b" div:", serial, time as u32),
        Event::Agu(serial) => add_of(draft, at, *b" agu:", serial),
        Event::Std(serial) => add_of(draft, at, *b" std:", serial),
        Event::Ld(serial, addr, look) => add_of_at_text(
            draft,
            at,
            *b" ld:",
            serial,
            addr,
            look_text(look),
        ),
        Event::LdForward(serial) => add_of_text(draft, at, *b" ld:", serial, *b":f"),
        Event::LdFault(serial) => add_of_text(draft, at, *b" ld:", serial, *b":x"),
        Event::Pf(addr, look) => add_at_text(draft, at, *b" pf:", addr, look_text(look)),
        Event::Ren(serial, pc) => add_of_at(draft, at, *b" ren:", serial, pc),
        Event::Fet(pc) => add_at(draft, at, *b" fet:", pc),
    }
}

// Whether two events are the same over the bytes that each was read from.
// Kinds are compared as rows of numbers, payloads byte by byte.
#![tactic(auto)]

ghost use Rattle.std.specs.Prelude.{◌≡◌, ◌-◌, ◌≤◌, length};
ghost use Rattle.smf.specs.Place.{bytes_of};
ghost use Rattle.smf.specs.Event.{map_kind, Same};
ghost use Rattle.event.specs.Event.{kind_of, event_of};
ghost use Rattle.same.specs.Same.{Tells, span, row_fields, load_span};

use event::{TrackEvent, TrackEventKind};
use rows::{Row, kind_row};

pub mod lists;
pub mod of_rows;

// The bytes of a range; of one that is not inside, those that there are.
fn part(bytes: &[u8], start: usize, size: usize) -> &[u8]
    ensures { result.now ≡ bytes_of bytes.now (span start size) }
{
    let rest = &bytes[start.min(bytes.len())..];
    &rest[..size.min(rest.len())]
}

// Whether the payload bytes agree.
fn same_load(a: Row, a_bytes: &[u8], b: Row, b_bytes: &[u8]) -> bool
    ensures { Tells result (bytes_of a_bytes.now (load_span a) ≡ bytes_of b_bytes.now (load_span b)) }
{
    part(a_bytes, a.start, a.length) == part(b_bytes, b.start, b.length)
}

// Whether the kind's number and the six fields agree; starts and lengths are not looked at, so that a derived equality
// would not do.
fn same_fields(a: Row, b: Row) -> bool
    ensures { Tells result (row_fields a ≡ row_fields b) }
{
    a.kind == b.kind
        && a.a == b.a
        && a.b == b.b
        && a.c == b.c
        && a.d == b.d
        && a.e == b.e
        && a.f == b.f
}

// Whether two kinds are the same: their fields and their payload bytes. Each stands beside the bytes that it was read from,
// as the public functions are given them: a struct of the two would be no plainer, since each call had to make two.
fn same_kind(a: TrackEventKind, a_bytes: &[u8], b: TrackEventKind, b_bytes: &[u8]) -> bool
    ensures { Tells result (map_kind (bytes_of a_bytes.now) (kind_of a) ≡ map_kind (bytes_of b_bytes.now) (kind_of b)) }
{
    let a_row = kind_row(a);
    let b_row = kind_row(b);
    same_fields(a_row, b_row) && same_load(a_row, a_bytes, b_row, b_bytes)
}

// Two events are the same when deltas, kinds, fields and payload bytes agree; starts don't count.
pub fn same_event(a: TrackEvent, a_bytes: &[u8], b: TrackEvent, b_bytes: &[u8]) -> bool
    ensures { Tells result (Same a_bytes.now (event_of a) b_bytes.now (event_of b)) }
{
    a.delta.0 == b.delta.0 && same_kind(a.kind, a_bytes, b.kind, b_bytes)
}

// What is asked of functions that are not exported: the event reader with the running status beside what it reads, which
// is all that the reader with a lent running status hands on, and the list of records.
use crate::cells::{CELLS, Given, put};
use base::Running;
use event::TrackEvent;
use event::running::read_step;
use loader::rules;
use rows::{WIDTH, event_row};
use track::list::{CAPACITY, EventList};

// An event's row behind four numbers. How many numbers there are then.
fn put_event(event: TrackEvent, cells: &mut [u64; CELLS]) -> usize {
    let kind = event.kind;
    let row = event_row(event.delta.0, kind);
    put(cells, 4, &row);
    WIDTH + 4
}

// Rules, running status, place: the number, the bytes used, the running status that is left, the padding, and the row.
pub fn step(given: Given, bytes: &[u8], cells: &mut [u64; CELLS]) -> usize {
    let step = read_step(
        bytes,
        given.n3,
        Running { status: given.b2 },
        rules(given.b1),
    );
    let left = u64::from(step.running.status);
    let read = step.read;
    match read {
        Ok(e) => {
            let event = e.event;
            put(cells, 0, &[0, e.used as u64, left, e.padding as u64]);
            put_event(event, cells)
        }
        Err(n) => {
            let refusal = n.refusal;
            put(
                cells,
                0,
                &[
                    u64::from(u8::from(refusal)),
                    n.used as u64,
                    left,
                    n.padding as u64,
                ],
            );
            4
        }
    }
}

// Rules, running status, place, an index: the count, the place, the running status, the padding, and the row of the
// record there.
pub fn record(given: Given, bytes: &[u8], cells: &mut [u64; CELLS]) -> usize {
    let running = Running { status: given.b2 };
    let read = EventList::read(bytes, given.n3, running, rules(given.b1));
    let list = read.list;
    let index = given.n4;
    if CAPACITY <= index {
        return 0;
    }
    put(
        cells,
        0,
        &[
            list.count as u64,
            read.place as u64,
            u64::from(read.running.status),
            read.padding as u64,
        ],
    );
    let record = list.records[index];
    let event = record.event;
    put_event(event, cells)
}

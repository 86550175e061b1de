// Writes a log with one record of each kind, reads it back and prints what was read; then what a bad cause, a short buffer, a cut
// field and a damaged header answer. The expected output is written by hand from document 01.
#![tactic(auto)]

use log_format::{AppendError, FormError, Place, Record, Stamp};
use std::io;

// A record with its place, as a line of the output.
fn print_record(rt: &impl Print, at: Place, record: Record) -> io::Result<()> {
    print!(rt; "{}", at.0)?;
    match record {
        Record::Begin(stamp) => println!(rt; " begin {}", stamp.0),
        Record::Read {
            stamp,
            item,
            version,
            value,
        } => println!(rt; " read {} {item} {} {value}", stamp.0, version.0),
        Record::Write { stamp, item, value } => println!(rt; " write {} {item} {value}", stamp.0),
        Record::Commit(stamp) => println!(rt; " commit {}", stamp.0),
        Record::Abort { stamp, cause } => println!(rt; " abort {} {cause}", stamp.0),
    }
}

// The bytes used after a call that adds to a log; a refusal is printed and leaves them.
fn used_after(
    rt: &impl Print,
    used: Place,
    added: Result<Place, AppendError>,
) -> io::Result<Place> {
    match added {
        Ok(next) => Ok(next),
        Err(error) => {
            println!(rt; "no {}", error.code())?;
            Ok(used)
        }
    }
}

fn add(rt: &impl Print, log: &mut [u8], used: Place, record: Record) -> io::Result<Place> {
    let added = log_writer::append(log, used, record);
    used_after(rt, used, added)
}

// One record of each kind, and a second abort, whose cause is refused.
fn fill(rt: &impl Print, log: &mut [u8], used: Place) -> io::Result<Place> {
    let stamp = Stamp(30);
    let records = [
        Record::Begin(Stamp(4294967295)),
        Record::Write {
            stamp: Stamp(10),
            item: 63,
            value: 305419896,
        },
        Record::Read {
            stamp: Stamp(20),
            item: 1,
            version: Stamp(10),
            value: 7,
        },
        Record::Commit(Stamp(258)),
        Record::Abort { stamp, cause: 1 },
        Record::Abort { stamp, cause: 2 },
    ];
    let mut at = used;
    for record in records {
        at = add(rt, log, at, record)?;
    }
    Ok(at)
}

// A refusal's code and place, 0 where it has none.
fn print_refused(rt: &impl Print, error: FormError) -> io::Result<()> {
    let place = match error {
        FormError::NoLog => Place(0),
        FormError::BadField(place) => place,
    };
    println!(rt; "refused {} {}", error.code(), place.0)
}

// The form of a log, and its records with their places.
fn show(rt: &impl Print, log: &[u8]) -> io::Result<()> {
    let count = match log_reader::read_log(log) {
        Ok(count) => count,
        Err(error) => return print_refused(rt, error),
    };
    println!(rt; "records {count}")?;
    let mut at = Place::FIRST;
    for _ in 0..count {
        let Ok(Some((record, next))) = log_reader::decode_at(log, at) else {
            return Ok(());
        };
        print_record(rt, at, record)?;
        at = next;
    }
    Ok(())
}

fn main(rt: HostRuntime) -> io::Result<()> {
    let mut log = [170u8; 64];
    let begun = log_writer::write_header(&mut log);
    let first = used_after(&rt, Place(0), begun)?;
    let used = fill(&rt, &mut log, first)?;
    for len in [used.0, 22, 3, 64] {
        show(&rt, log.get(..len).unwrap_or(&[]))?;
    }
    log[3] = 2;
    show(&rt, log.get(..used.0).unwrap_or(&[]))?;
    let mut short = [0u8; 10];
    let begun = log_writer::write_header(&mut short);
    let next = used_after(&rt, Place(0), begun)?;
    let last = add(&rt, &mut short, next, Record::Begin(Stamp(1)))?;
    show(&rt, short.get(..last.0).unwrap_or(&[]))?;
    let mut none = [0u8; 3];
    let begun = log_writer::write_header(&mut none);
    used_after(&rt, Place(0), begun)?;
    Ok(())
}

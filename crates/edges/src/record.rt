// 01, The record and the writer: the record of S, the data of its positions, and the search, also for the nth AVP of a
// name (02, [9]).
use crate::notation::Command;
use crate::{print, start};
use rules::Record;

// R, P, E, T, both identifiers and the count.
fn print_record(rt: &impl Print, record: &Record) {
    print::word(rt, "record");
    for flag in [record.r, record.p, record.e, record.t] {
        print::bit(rt, flag);
    }
    print::spaced(rt, record.hop_by_hop);
    print::spaced(rt, record.end_to_end);
    print::spaced(rt, record.count);
    print::end_line(rt);
}

// A position, and its depth, vendor, code, M, P, start and length of the data.
fn print_avps(rt: &impl Print, record: &Record, positions: &[usize]) {
    for &position in positions {
        if let Some(avp) = record.avps.get(position) {
            print::word(rt, "avp");
            print::spaced(rt, position);
            print::spaced(rt, avp.depth);
            print::spaced(rt, avp.vendor);
            print::spaced(rt, avp.code);
            print::bit(rt, avp.m);
            print::bit(rt, avp.p);
            print::spaced(rt, avp.start);
            print::spaced(rt, avp.length);
            print::end_line(rt);
        }
    }
}

// A position, and the number of its octets and each of them, from the command's.
fn print_data(rt: &impl Print, record: &Record, command: &[u8], positions: &[usize]) {
    for &position in positions {
        let octets = lookup::data(*record, position, command);
        print::word(rt, "data");
        print::spaced(rt, position);
        print::spaced(rt, octets.len());
        for &octet in octets {
            print::spaced(rt, octet);
        }
        print::end_line(rt);
    }
}

// A vendor, a code and an ordinal; the position that the search finds, and how many there are.
fn print_search(rt: &impl Print, record: &Record, vendor: u32, code: u32, ordinal: usize) {
    let sought = lookup::search(*record, vendor, code, ordinal);
    print::word(rt, "search");
    print::spaced(rt, vendor);
    print::spaced(rt, code);
    print::spaced(rt, ordinal);
    match sought.found {
        Some(position) => print::spaced(rt, position),
        None => print::word(rt, " nothing"),
    }
    print::spaced(rt, sought.number);
    print::end_line(rt);
}

pub(crate) fn print_s(rt: &impl Print, command: &mut Command) {
    if command.put_command(start::S, "").is_err() {
        return;
    }
    let record = reader::read(command.octets()).record;
    print_record(rt, &record);
    // A string, a group and its member, 4203, 4208, and two unused places.
    print_avps(rt, &record, &[0, 1, 2, 7, 10, 11, 255]);
    // The 263, the 260, the 4203; an unused position; one that the record has no room for; 4208, whose part ends at
    // 160.
    print_data(rt, &record, command.octets(), &[0, 1, 7, 11, 256, 10]);
    // Without the last octet of S the part of 4208 leaves the slice.
    command.truncate(159);
    print_data(rt, &record, command.octets(), &[10]);
    // 4203 is at position 7; there is no 4209; 266 stands at depth 2 only; 4203 is named with its vendor.
    print_search(rt, &record, 10415, 4203, 0);
    print_search(rt, &record, 10415, 4209, 0);
    print_search(rt, &record, 0, 266, 0);
    print_search(rt, &record, 0, 4203, 0);
}

// S with T set, and behind it a 282 with P and a 281 without M.
pub(crate) fn print_flags(rt: &impl Print, command: &mut Command) {
    if command.put_command(start::S, "MP282:72 281:65").is_err() {
        return;
    }
    command.set_flags(0xd0);
    let record = reader::read(command.octets()).record;
    print_record(rt, &record);
    print_avps(rt, &record, &[11, 12]);
}

// A count above 256 is read as 256.
pub(crate) fn print_count_300(rt: &impl Print, command: &mut Command) {
    if command.put_command(start::S, "").is_err() {
        return;
    }
    let mut record = reader::read(command.octets()).record;
    record.count = 300;
    print_data(rt, &record, command.octets(), &[255, 256]);
    print_search(rt, &record, 10415, 4208, 0);
    print_search(rt, &record, 10415, 4209, 0);
    // Places that are all 0 stand at depth 0.
    print_search(rt, &record, 0, 0, 0);
}

// 02 [9]: three policies, at positions 9, 15 and 21, each with a 4208 and a 4204, and a 4208 of the command's own list
// at position 27.
pub(crate) fn print_policies(rt: &impl Print, command: &mut Command) {
    if command
        .put_command(
            start::BEGUN_ANSWER,
            "M268=2001 VM4202:72 V2207:61 VM4207(VM4208=1 VM4204(VM4206=10 VM4205=11) M432=1) VM4207(VM4208=2 VM4204(VM4206=10 VM4205=11) M432=2) VM4207(VM4208=3 VM4204(VM4206=10 VM4205=11) M432=3) VM4208=4",
        )
        .is_err()
    {
        return;
    }
    let reading = reader::read(command.octets());
    print::verdict_line(rt, "policies", reading.verdict);
    let mut record = reading.record;
    for ordinal in [0, 1, 2, 3, usize::MAX] {
        print_search(rt, &record, 10415, 4207, ordinal);
    }
    print_search(rt, &record, 10415, 4208, 0);
    print_search(rt, &record, 10415, 4208, 1);
    print_search(rt, &record, 10415, 4204, 0);
    print_search(rt, &record, 0, 4207, 0);
    // The second policy is the last AVP that is used; then it is the first that is not.
    record.count = 16;
    print_search(rt, &record, 10415, 4207, 1);
    record.count = 15;
    print_search(rt, &record, 10415, 4207, 1);
}

// 01, What comes back: every refusal carries the empty record. S is cut to 156 octets.
pub(crate) fn print_refusal(rt: &impl Print, command: &mut Command) {
    if command.put_command(start::S, "").is_err() {
        return;
    }
    command.truncate(156);
    let reading = reader::read(command.octets());
    print::verdict_line(rt, "cut_s", reading.verdict);
    print_record(rt, &reading.record);
    print_avps(rt, &reading.record, &[0]);
}

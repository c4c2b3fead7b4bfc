// Runs the commands of document 01, section "Commands at the edges", that are not marked (p), and further edges of its
// clauses, through the reader, and the codes to 4,300 of three vendors through the dictionary. A line for each case:
// its label, number, place, Vendor-Id and code. The file `stdout` has what the documents say must come out.
#![tactic(auto)]

mod case;
mod error_answers;
mod exchanges;
mod header;
mod kinds;
mod limits;
mod notation;
mod print;
mod record;
mod rows;
mod start;
mod walks;

use notation::Command;

// A start, and a line for each case that begins with it.
fn judge_cases(rt: &impl Print, command: &mut Command, cases: &[(&str, &str)]) {
    for &(start, lines) in cases {
        case::judge_lines(rt, command, start, lines);
    }
}

fn print_records(rt: &impl Print, command: &mut Command) {
    record::print_s(rt, command);
    record::print_flags(rt, command);
    record::print_count_300(rt, command);
    record::print_policies(rt, command);
    record::print_refusal(rt, command);
}

fn main(rt: HostRuntime) {
    let mut command = Command::new();
    judge_cases(&rt, &mut command, limits::VALUES);
    limits::judge_counts(&rt, &mut command);
    limits::judge_lengths(&rt, &mut command);
    for &(label, octets) in header::CASES {
        case::judge_octets(&rt, &mut command, label, octets);
    }
    judge_cases(&rt, &mut command, walks::CASES);
    judge_cases(&rt, &mut command, rows::CASES);
    judge_cases(&rt, &mut command, exchanges::CASES);
    judge_cases(&rt, &mut command, error_answers::CASES);
    print_records(&rt, &mut command);
    // Names without vendor, with a vendor that has no entry, and of 3GPP.
    for vendor in [0, 10414, 10415] {
        kinds::print_kinds(&rt, vendor);
    }
}

// A case: a command is put together in a lent one and judged, and its line is printed.
use crate::notation::Command;
use crate::print;
use rules::limits;
use std::io;

// A text that is not in the notation has no line, and the cases behind it are tried.
pub(crate) fn judge(rt: &impl Print, label: &str, put: io::Result<()>, command: &Command) {
    if put.is_ok() {
        let mut log = [0; limits::LOG_NUMBERS];
        print::verdict_line(rt, label, reader::verdict(command.octets(), &mut log));
    }
}

// Octets as they are: nothing is put before them, and no length is set.
pub(crate) fn judge_octets(rt: &impl Print, command: &mut Command, label: &str, text: &str) {
    let put = command.start(text);
    judge(rt, label, put, command);
}

// A case for each line: its label, and the AVPs behind the start.
pub(crate) fn judge_lines(rt: &impl Print, command: &mut Command, start: &str, lines: &str) {
    for line in lines.lines() {
        let line = line.trim_start();
        let (label, avps) = line.split_once(' ').unwrap_or((line, ""));
        let put = command.put_command(start, avps);
        judge(rt, label, put, command);
    }
}

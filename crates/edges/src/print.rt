// Lines on standard output, word by word. A word that cannot be written is passed over, and those behind it are tried:
// what is printed is compared with the file `stdout`, where a word that is lacking is seen.
use rules::Verdict;
use std::fmt::Display;

pub(crate) fn word(rt: &impl Print, text: &str) {
    let _ = rt.write_all(text.as_bytes());
}

pub(crate) fn number(rt: &impl Print, n: impl Display + Drop) {
    let _ = rt.print(n);
}

pub(crate) fn spaced(rt: &impl Print, n: impl Display + Drop) {
    word(rt, " ");
    number(rt, n);
}

pub(crate) fn bit(rt: &impl Print, b: bool) {
    word(rt, if b { " 1" } else { " 0" });
}

pub(crate) fn end_line(rt: &impl Print) {
    word(rt, "\n");
}

// A case: its label, then number, place, Vendor-Id and code.
pub(crate) fn verdict_line(rt: &impl Print, label: &str, verdict: Verdict) {
    word(rt, label);
    spaced(rt, verdict.number);
    spaced(rt, verdict.place);
    spaced(rt, verdict.vendor);
    spaced(rt, verdict.code);
    end_line(rt);
}

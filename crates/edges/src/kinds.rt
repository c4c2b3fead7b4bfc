// 01, Dictionary: each code of a vendor up to 4,300 through the table of plain codes or the search. A line for each
// code that has an entry, in their order: vendor and code, whether M must be set, and the form of the data.
use crate::print;

// The form of an entry's data.
fn print_form(rt: &impl Print, entry: u8) {
    if dictionary::is_group(entry) {
        return print::word(rt, " group");
    }
    match dictionary::width(entry) {
        0 => print::word(rt, " any"),
        width => print::spaced(rt, width),
    }
}

pub(crate) fn print_kinds(rt: &impl Print, vendor: u32) {
    let table = dictionary::plain_codes();
    for code in 0..=4300 {
        let entry = dictionary::entry_by(table, vendor, code);
        if dictionary::is_known(entry) {
            print::number(rt, vendor);
            print::spaced(rt, code);
            print::bit(rt, dictionary::requires_m(entry));
            print_form(rt, entry);
            print::end_line(rt);
        }
    }
}

// 01, Commands at the edges, the cases that are not marked (p).
use crate::notation::Command;
use crate::{case, start};
use std::io;

// S with 4203 = 2: 5004 at 100. Window 10 to 10: 5004, at its 4205; 10 to 11: none. The BTR with the window meets the
// exchange rules for 4203 = 0; its 4204 is at 164, and 4205 at 192.
pub(crate) static VALUES: &[(&str, &str)] = &[(
    start::BEGUN_REQUEST,
    "type_2 VM4203=2 M293:68 VM4202:72 VM4208=1
    window_10_to_10 VM4203=0 V532:61 M414:0000000000000001 VM4209=5 VM4204(VM4206=10 VM4205=10)
    window_10_to_11 VM4203=0 V532:61 M414:0000000000000001 VM4209=5 VM4204(VM4206=10 VM4205=11)",
)];

// 256 AVPs: the 11 of S and 245 Route-Records of 8 octets, of which any number is admitted (01, Rows, BTR). What comes
// last is at 160 + 245 * 8 = 2120.
fn put_many_avps(command: &mut Command, last: &str) -> io::Result<()> {
    command.start(start::S)?;
    for _ in 0..245 {
        command.put("M282:")?;
    }
    command.put(last)?;
    command.set_length();
    Ok(())
}

fn judge_many_avps(rt: &impl Print, command: &mut Command, label: &str, last: &str) {
    let put = put_many_avps(command, last);
    case::judge(rt, label, put, command);
}

pub(crate) fn judge_counts(rt: &impl Print, command: &mut Command) {
    // 256 AVPs: no 7002; nothing else applies, and the command is accepted.
    judge_many_avps(rt, command, "avps_256", "");
    // 257: 7002, with vendor and code 0 (01, What comes back).
    judge_many_avps(rt, command, "avps_257", "M282:");
    // Walk, check 1 stands before check 2: four stray octets behind 256 AVPs are 7002 too.
    judge_many_avps(rt, command, "avps_256_and_stray_octets", "#00000000");
}

// S with one AVP behind it that the dictionary lacks, code 9999 without M, which fills the command to its length.
fn put_long_command(command: &mut Command, length: usize) -> io::Result<()> {
    command.start(start::S)?;
    let avp = command.begin_avp("9999")?;
    command.fill(length)?;
    command.set_avp_length(avp);
    command.set_length();
    Ok(())
}

fn judge_long_command(rt: &impl Print, command: &mut Command, label: &str, length: usize) {
    let put = put_long_command(command, length);
    case::judge(rt, label, put, command);
}

pub(crate) fn judge_lengths(rt: &impl Print, command: &mut Command) {
    // Length 16,384: no 7001; the command is accepted.
    judge_long_command(rt, command, "length_16384", 16384);
    // 16,388: 7001 at 1.
    judge_long_command(rt, command, "length_16388", 16388);
    // Header: no multiple of 4 is listed before above 16,384: 5015 at 1.
    judge_long_command(rt, command, "length_16385", 16385);
}

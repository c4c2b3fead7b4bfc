// 01, Rows, and Order of checks, Rows. Most commands are S but for the AVPs at fault.
use crate::start;

pub(crate) static CASES: &[(&str, &str)] = &[
    // 01, Readings that look right: row faults reported before a later 5014. The second 263 is at 32, the short one at
    // 44.
    (
        start::REQUEST,
        "row_fault_before_5014 M263:73 M263:73 #0000010740000007",
    ),
    // 263 in the command's list: not first with none before it, 5008; none, 5005 at the end; with one before it, 5009
    // at the second. In a group it is a name like any other.
    (
        start::REQUEST,
        "263_second M264:6F M263:73 M260(M266=10415) M277=1 M296:72 M283:64 VM4203=1 M293:68 VM4202:72 VM4208=1
        263_missing M264:6F M260(M266=10415) M277=1 M296:72 M283:64 VM4203=1 M293:68 VM4202:72 VM4208=1",
    ),
    (
        start::S,
        "263_twice M263:73
        263_in_group M284(M280:68 M33:73 M263:73)",
    ),
    // Mark ?: the second 301 exceeds its row. Of several missing rows the first in the printed order.
    (start::S, "301_twice 301=1 301=1"),
    (start::REQUEST, "260_missing M263:73 M264:6F"),
    // 260 has no +, and 264 is none of its rows; 258 and 259 both pass, and neither, as in S.
    (
        start::REQUEST,
        "260_with_264 M263:73 M260(M266=10415 M264:6F) M277=1 M264:6F M296:72 M283:64 VM4203=1 M293:68 VM4202:72 VM4208=1
        260_with_258_and_259 M263:73 M260(M266=10415 M258=16777348 M259=0) M277=1 M264:6F M296:72 M283:64 VM4203=1 M293:68 VM4202:72 VM4208=1",
    ),
    (start::S, "260_with_neither"),
    // 5005 of a group: the place is the group's end, before the 282.
    (
        start::S,
        "628_without_630 V628(M266=10415 V629=1) M282:72
        4204_without_4205 VM4204(VM4206=10) M282:72",
    ),
    // The command's list is judged whole before any group: 260 has a 264 at 52, and the command's list a second 264 at
    // 88, or no 283.
    (
        start::REQUEST,
        "command_list_first M263:73 M260(M266=10415 M264:6F) M277=1 M264:6F M264:6F M296:72 M283:64 VM4203=1 M293:68 VM4202:72 VM4208=1
        missing_row_first M263:73 M260(M266=10415 M264:6F) M277=1 M264:6F M296:72 VM4203=1 M293:68 VM4202:72 VM4208=1",
    ),
];

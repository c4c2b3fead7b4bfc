// Request [1]: answers with E, by the general form of RFC 6733 clause 7.2, and by the window rule alone.
use crate::start;

pub(crate) static CASES: &[(&str, &str)] = &[
    // 263 first, late at 32, a second one at 44, and absent; 264, 296 and 268 missing at the end, each 12 octets
    // shorter than 56; 268 and 281 exceeded. A 297 of 32 octets does not stand for 268, and may stand beside it.
    (
        start::ERROR_ANSWER,
        "error_263_first M263:73 M264:68 M296:72 M268=3002
        error_263_absent M264:68 M296:72 M268=3002
        error_263_late M264:68 M263:73 M296:72 M268=3002
        error_263_twice M263:73 M264:68 M263:73 M296:72 M268=3002
        error_264_missing M296:72 M268=3002
        error_296_missing M264:68 M268=3002
        error_268_missing M264:68 M296:72
        error_297_alone M264:68 M296:72 M297(M266=10415 M298=1)
        error_297_beside_268 M264:68 M296:72 M268=3002 M297(M266=10415 M298=1)
        error_268_twice M264:68 M296:72 M268=3002 M268=3002
        error_281_twice M264:68 M296:72 M268=3002 281:6D 281:6D",
    ),
    // The walk is that of every command, and so are the rows of groups: a 260 at 56 that lacks 266 at its end, 76.
    // Policies ask for nothing; of a 4207 at 56 the 4205 stands at 112.
    (
        start::ERROR_ANSWER,
        "error_277_of_0 M264:68 M296:72 M268=3002 M277=0
        error_unknown_with_m M264:68 M296:72 M268=3002 M9999:61
        error_unknown_without_m M264:68 M296:72 M268=3002 9999:61
        error_260_without_266 M264:68 M296:72 M268=3002 M260(M258=1)
        error_policies M264:68 M296:72 M268=3002 VM4207(VM4208=1) VM4207(VM4208=2)
        error_window_in_policy M264:68 M296:72 M268=3002 VM4207(VM4208=1 VM4204(VM4206=11 VM4205=10))",
    ),
];

// What the programs say of themselves.
use usage::Texts;

// The completing program.
pub const COMPLETE: Texts<'static> = Texts {
    usage: "usage: complete < LIST > ANSWERS, or complete --help",
    help: &[
        COMPLETE_ANSWERS,
        REQUEST,
        EXAMPLE,
        COMPLETE_EXAMPLE,
        EXIT_STATUS,
    ],
};

// The predicting program.
pub const PREDICT: Texts<'static> = Texts {
    usage: "usage: predict [--period T] < LIST > ANSWERS, or predict --help",
    help: &[
        PREDICT_ANSWERS,
        REQUEST,
        EXAMPLE,
        PREDICT_EXAMPLE,
        EXIT_STATUS,
    ],
};

// How it is used and what it writes.
const COMPLETE_ANSWERS: &str = "usage: complete < LIST > ANSWERS\n\
    \n\
    Reads request lines from standard input and writes to standard output a\n\
    header, \"dip W ZTOR RRUP Z25 from\", then a line for each request: \"ok\", the\n\
    dip in degrees, W, ZTOR, RRUP and Z2.5 in metres, and a letter for each of the\n\
    five, m where it was measured, i where the caller inferred it, e where it was\n\
    estimated; or \"no\" and the number of the refusal.\n";

const PREDICT_ANSWERS: &str = "usage: predict [--period T] < LIST > ANSWERS\n\
    \n\
    Reads request lines from standard input and writes to standard output for each\n\
    request that is accepted a line for each of 24 measures: its number, ln median\n\
    in millionths, the median in 10^-10 of its unit, and the total sigma in\n\
    millionths. Measures 0 to 20 are the spectrum in g at the periods 0.010, 0.020,\n\
    0.030, 0.050, 0.075, 0.10, 0.15, 0.20, 0.25, 0.30, 0.40, 0.50, 0.75, 1.0, 1.5,\n\
    2.0, 3.0, 4.0, 5.0, 7.5 and 10.0 s; 21 is PGA in g, 22 PGV in cm/s, 23 PGD in\n\
    cm. Up to 0.25 s a median that would be below PGA's is PGA's; its sigma stays. A\n\
    request that is refused gets \"no\" and the number of the refusal.\n\
    \n\
    With --period T, a period in thousandths of a second from 10 to 10000, one line:\n\
    T, ln median, the median in 10^-10 of g and the total sigma. Between two\n\
    tabulated periods ln median and sigma lie on the straight line over the\n\
    logarithm of the period. A request that is accepted gets \"no 17\" where T is any\n\
    other number.\n\
    \n\
    ln median and sigma lie within one millionth of the exact value, a median of Y\n\
    units within 1 + Y/500000 of them.\n";

// The request's fields.
const REQUEST: &str = "\n\
    A request is a line of thirteen fields with single spaces, whole numbers all. A\n\
    \"~\" before a number and its sign says that it was inferred, say from a map, and\n\
    not measured. A star marks a field that may be blank, written \"-\":\n\
    \x20 M        hundredths of magnitude, 400 to 850, 800 or 750 by the style of fault\n\
    \x20 rake     degrees, -180 to 180\n\
    \x20 Vs30     m/s, 150 to 1500: the soil's speed\n\
    \x20 dip*     degrees, 15 to 90\n\
    \x20 W*       m, 1 to 100000: the width of the rupture\n\
    \x20 ZHYP*    m, 0 to 30000: the depth of the hypocentre\n\
    \x20 ZTOR*    m, 0 to 15000: the depth of the rupture's top\n\
    \x20 RJB      m, 0 to 200000: the distance to the rupture's projection\n\
    \x20 azimuth  degrees, -180 to 180\n\
    \x20 RRUP*    m, 0 to 200000: the distance to the rupture\n\
    \x20 Z1.0*    m, 0 to 10000: a depth of the basin\n\
    \x20 Z1.5*    m, 0 to 10000: a depth of the basin\n\
    \x20 Z2.5*    m, 0 to 10000: a depth of the basin\n";

// A request.
const EXAMPLE: &str = "\n\
    Example: the request\n\
    \x20 650 0 760 - 10000 - 3000 4000 30 - - - 2000\n";

// Its answer.
const COMPLETE_EXAMPLE: &str = "gets\n\
    \x20 ok 90 10000 3000 5000 2000 emmem\n";

const PREDICT_EXAMPLE: &str = "gets 24 lines, of which that of PGA is\n\
    \x20 21 -1021505 3600527821 519476\n\
    and with --period 370 the line\n\
    \x20 370 -495903 6090208853 583453\n";

// What the exit status says.
const EXIT_STATUS: &str = "\n\
    Exit status: 0 where the list was answered to its end, whatever the answers; 1\n\
    where input cannot be read or output cannot be written; 2 for any other\n\
    arguments.\n";

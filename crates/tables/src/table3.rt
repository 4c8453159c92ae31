// Table 3 of Campbell and Bozorgnia 2008: the standard deviations and the correlation.
ghost use Rattle.std.specs.Prelude.{◌≡◌, ◌<◌};
ghost use Rattle.tables.specs.Tables.{measures, deviations_at};

use crate::Deviations;

// The row of a measure, by its number as in Table 2.
#[tactic(auto, unfolding(crate::specs::Tables::deviations_at, crate::specs::Tables::table3))]
pub fn deviations_at(i: usize) -> Deviations
    requires { i < measures }
    ensures { result ≡ deviations_at i }
{
    match i {
        // 0.010 s
        0 => Deviations {
            s: 478,
            t: 219,
            sC: 166,
            sT: 526,
            sArb: 551,
            rho: 1000,
        },
        // 0.020 s
        1 => Deviations {
            s: 480,
            t: 219,
            sC: 166,
            sT: 528,
            sArb: 553,
            rho: 999,
        },
        // 0.030 s
        2 => Deviations {
            s: 489,
            t: 235,
            sC: 165,
            sT: 543,
            sArb: 567,
            rho: 989,
        },
        // 0.050 s
        3 => Deviations {
            s: 510,
            t: 258,
            sC: 162,
            sT: 572,
            sArb: 594,
            rho: 963,
        },
        // 0.075 s
        4 => Deviations {
            s: 520,
            t: 292,
            sC: 158,
            sT: 596,
            sArb: 617,
            rho: 922,
        },
        // 0.10 s
        5 => Deviations {
            s: 531,
            t: 286,
            sC: 170,
            sT: 603,
            sArb: 627,
            rho: 898,
        },
        // 0.15 s
        6 => Deviations {
            s: 532,
            t: 280,
            sC: 180,
            sT: 601,
            sArb: 628,
            rho: 890,
        },
        // 0.20 s
        7 => Deviations {
            s: 534,
            t: 249,
            sC: 186,
            sT: 589,
            sArb: 618,
            rho: 871,
        },
        // 0.25 s
        8 => Deviations {
            s: 534,
            t: 240,
            sC: 191,
            sT: 585,
            sArb: 616,
            rho: 852,
        },
        // 0.30 s
        9 => Deviations {
            s: 544,
            t: 215,
            sC: 198,
            sT: 585,
            sArb: 618,
            rho: 831,
        },
        // 0.40 s
        10 => Deviations {
            s: 541,
            t: 217,
            sC: 206,
            sT: 583,
            sArb: 618,
            rho: 785,
        },
        // 0.50 s
        11 => Deviations {
            s: 550,
            t: 214,
            sC: 208,
            sT: 590,
            sArb: 626,
            rho: 735,
        },
        // 0.75 s
        12 => Deviations {
            s: 568,
            t: 227,
            sC: 221,
            sT: 612,
            sArb: 650,
            rho: 628,
        },
        // 1.0 s
        13 => Deviations {
            s: 568,
            t: 255,
            sC: 225,
            sT: 623,
            sArb: 662,
            rho: 534,
        },
        // 1.5 s
        14 => Deviations {
            s: 564,
            t: 296,
            sC: 222,
            sT: 637,
            sArb: 675,
            rho: 411,
        },
        // 2.0 s
        15 => Deviations {
            s: 571,
            t: 296,
            sC: 226,
            sT: 643,
            sArb: 682,
            rho: 331,
        },
        // 3.0 s
        16 => Deviations {
            s: 558,
            t: 326,
            sC: 229,
            sT: 646,
            sArb: 686,
            rho: 289,
        },
        // 4.0 s
        17 => Deviations {
            s: 576,
            t: 297,
            sC: 237,
            sT: 648,
            sArb: 690,
            rho: 261,
        },
        // 5.0 s
        18 => Deviations {
            s: 601,
            t: 359,
            sC: 237,
            sT: 700,
            sArb: 739,
            rho: 200,
        },
        // 7.5 s
        19 => Deviations {
            s: 628,
            t: 428,
            sC: 271,
            sT: 760,
            sArb: 807,
            rho: 174,
        },
        // 10.0 s
        20 => Deviations {
            s: 667,
            t: 485,
            sC: 290,
            sT: 825,
            sArb: 874,
            rho: 174,
        },
        // PGA
        21 => Deviations {
            s: 478,
            t: 219,
            sC: 166,
            sT: 526,
            sArb: 551,
            rho: 1000,
        },
        // PGV
        22 => Deviations {
            s: 484,
            t: 203,
            sC: 190,
            sT: 525,
            sArb: 558,
            rho: 691,
        },
        // PGD
        _ => Deviations {
            s: 667,
            t: 485,
            sC: 290,
            sT: 825,
            sArb: 874,
            rho: 174,
        },
    }
}

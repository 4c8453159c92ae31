// What Table 3 alone fixes of each measure, so that no request spends a root on it. Every number is held to
// the table by a computed test. Each is a `match` since the compiler keeps one as constants, where an array
// would be built anew for each call.
ghost use Rattle.std.specs.Prelude.{◌≡◌, ◌<◌};
ghost use Rattle.tables.specs.Tables.{measures, deviations_at};
ghost use Rattle.model.specs.Fixed.{cross_fixed};
ghost use Rattle.sigmas.specs.Linear.{linear_total, linear_arbitrary};

// 2 rho sigma_lnYB, in units of 10^-9.
pub fn cross_at(i: usize) -> u32
    requires { i < measures }
    ensures { result ≡ cross_fixed (deviations_at i) }
{
    match i {
        0 => 744_268_768, // 0.010 s
        1 => 748_650_358, // 0.020 s
        2 => 763_828_204, // 0.030 s
        3 => 794_343_669, // 0.050 s
        4 => 783_211_729, // 0.075 s
        5 => 786_887_839, // 0.10 s
        6 => 782_034_039, // 0.15 s
        7 => 769_554_008, // 0.20 s
        8 => 752_766_951, // 0.25 s
        9 => 754_218_455, // 0.30 s
        10 => 706_815_673, // 0.40 s
        11 => 677_636_516, // 0.50 s
        12 => 605_782_744, // 0.75 s
        13 => 515_108_256, // 1.0 s
        14 => 392_582_242, // 1.5 s
        15 => 321_626_416, // 2.0 s
        16 => 271_945_160, // 3.0 s
        17 => 256_671_173, // 4.0 s
        18 => 208_307_848, // 5.0 s
        19 => 191_995_103, // 7.5 s
        20 => 207_312_511, // 10.0 s
        21 => 744_268_768, // PGA
        22 => 524_898_081, // PGV
        _ => 207_312_511, // PGD
    }
}

// The total sigma (16) of a linear site, in millionths.
pub fn linear_total_at(i: usize) -> u32
    requires { i < measures }
    ensures { result ≡ linear_total (deviations_at i) }
{
    match i {
        0 => 525_780, // 0.010 s
        1 => 527_599, // 0.020 s
        2 => 542_537, // 0.030 s
        3 => 571_545, // 0.050 s
        4 => 596_376, // 0.075 s
        5 => 603_123, // 0.10 s
        6 => 601_185, // 0.15 s
        7 => 589_200, // 0.20 s
        8 => 585_454, // 0.25 s
        9 => 584_945, // 0.30 s
        10 => 582_898, // 0.40 s
        11 => 590_166, // 0.50 s
        12 => 611_680, // 0.75 s
        13 => 622_615, // 1.0 s
        14 => 636_955, // 1.5 s
        15 => 643_162, // 2.0 s
        16 => 646_251, // 3.0 s
        17 => 648_062, // 4.0 s
        18 => 700_059, // 5.0 s
        19 => 759_979, // 7.5 s
        20 => 824_690, // 10.0 s
        21 => 525_780, // PGA
        22 => 524_848, // PGV
        _ => 824_690, // PGD
    }
}

// Its arbitrary component's (18).
pub fn linear_arbitrary_at(i: usize) -> u32
    requires { i < measures }
    ensures { result ≡ linear_arbitrary (deviations_at i) }
{
    match i {
        0 => 551_363, // 0.010 s
        1 => 553_098, // 0.020 s
        2 => 567_072, // 0.030 s
        3 => 594_061, // 0.050 s
        4 => 616_951, // 0.075 s
        5 => 626_623, // 0.10 s
        6 => 627_554, // 0.15 s
        7 => 617_862, // 0.20 s
        8 => 615_822, // 0.25 s
        9 => 617_548, // 0.30 s
        10 => 618_228, // 0.40 s
        11 => 625_748, // 0.50 s
        12 => 650_380, // 0.75 s
        13 => 662_023, // 1.0 s
        14 => 674_534, // 1.5 s
        15 => 681_713, // 2.0 s
        16 => 685_625, // 3.0 s
        17 => 690_039, // 4.0 s
        18 => 739_088, // 5.0 s
        19 => 806_851, // 7.5 s
        20 => 874_193, // 10.0 s
        21 => 551_363, // PGA
        22 => 558_180, // PGV
        _ => 874_193, // PGD
    }
}

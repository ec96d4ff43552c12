//! Runs of the program: the worked rows, the ends of every range, and words and lines that are bad.
use crate::checks::holds;
use crate::trials::{Row, outcome, play};
use spindle_commands::Stop;
use std::test::Fail;

const OK: Result<(), Stop> = Ok(());

const BAD: Result<(), Stop> = Err(Stop::Words);

const LINE_1: Result<(), Stop> = Err(Stop::Line(1));

const LINE_2: Result<(), Stop> = Err(Stop::Line(2));

const LINE_3: Result<(), Stop> = Err(Stop::Line(3));

const RUNS: &[Row] = &[
    // Lists that are cut, with the lengths of their pieces.
    Row("cut|10|4", b"", "3 3 2 2\n", OK),
    Row("cut|3|8", b"", "1 1 1\n", OK),
    Row("cut|0|5", b"", "\n", OK),
    Row("cut|0|0", b"", "\n", OK),
    Row("cut|1000000|1", b"", "1000000\n", OK),
    Row("cut|1|4294967295", b"", "1\n", OK),
    Row("cut|0|4294967295", b"", "\n", OK),
    Row("cut|0000000010|0000000004", b"", "3 3 2 2\n", OK),
    Row("cut|7|3", b"", "3 2 2\n", OK),
    // Rounds of a lock, with the squares that they answer.
    Row("squares|10|4|4", b"", "0 1 4 9 16 25 36 49 64 81\n", OK),
    Row("squares|0|1|1", b"", "\n", OK),
    Row("squares|1|64|100000", b"", "0\n", OK),
    Row("squares|5|1|3", b"", "0 1 4 9 16\n", OK),
    Row("squares|3|64|1", b"", "0 1 4\n", OK),
    Row("squares|4|2|4", b"", "0 1 4 9\n", OK),
    // The same of locks with slots.
    Row("slots|10|4|8|3", b"", "0 1 4 9 16 25 36 49 64 81\n", OK),
    Row("slots|10|4|8|1", b"", "0 1 4 9 16 25 36 49 64 81\n", OK),
    Row("slots|0|4|8|3", b"", "\n", OK),
    Row("slots|3|64|100000|100000", b"", "0 1 4\n", OK),
    Row("slots|5|1|3|2", b"", "0 1 4 9 16\n", OK),
    Row("slots|4|2|2|100000", b"", "0 1 4 9\n", OK),
    Row("slots|11|6|5|4", b"", "0 1 4 9 16 25 36 49 64 81 100\n", OK),
    Row("slots|7|3|50|7", b"", "0 1 4 9 16 25 36\n", OK),
    Row("slots|1|1|1|1", b"", "0\n", OK),
    // Rounds that a number may stop, with the pieces that ran and those that were skipped.
    Row("faults|6|1|6|2", b"", "ran 0 1 2\nskipped 3 4 5\n", OK),
    Row("faults|6|4|6|9", b"", "ran 0 1 2 3 4 5\nskipped\n", OK),
    Row("faults|5|1|2|1", b"", "ran 0\nskipped 1\n", OK),
    Row("faults|0|4|1|0", b"", "ran\nskipped\n", OK),
    Row("faults|6|1|6|9", b"", "ran 0 1 2 3 4 5\nskipped\n", OK),
    Row("faults|5|1|2|3", b"", "ran 0 1\nskipped\n", OK),
    Row("faults|3|1|100000|0", b"", "ran 0\nskipped 1 2\n", OK),
    Row("faults|6|64|1|2", b"", "ran 0\nskipped\n", OK),
    Row("faults|2|64|2|4294967295", b"", "ran 0 1\nskipped\n", OK),
    Row("faults|1|1|1|0", b"", "ran 0\nskipped\n", OK),
    // Grids, with how many numbers they have, the least and the greatest.
    Row("grid|16|16|4|16", b"", "256 16 16\n", OK),
    Row("grid|16|16|4|4", b"", "256 16 16\n", OK),
    Row("grid|3|5|2|2", b"", "15 5 5\n", OK),
    Row("grid|4|7|3|3", b"", "28 7 7\n", OK),
    Row("grid|1|1|1|1", b"", "1 1 1\n", OK),
    Row("grid|1|1|64|4096", b"", "1 1 1\n", OK),
    Row("grid|512|3|64|4096", b"", "1536 3 3\n", OK),
    Row("grid|1|512|4|1", b"", "512 512 512\n", OK),
    Row("grid|7|11|6|5", b"", "77 11 11\n", OK),
    Row("grid|40|29|5|50", b"", "1160 29 29\n", OK),
    Row("grid|13|30|3|8", b"", "390 30 30\n", OK),
];

// Words of no command, too few or too many, and numbers out of their ranges.
const BAD_WORDS: &[Row] = &[
    Row("", b"", "", BAD),
    Row("cut", b"", "", BAD),
    Row("cut|5", b"", "", BAD),
    Row("cut|5|0", b"", "", BAD),
    Row("cut|5|4|4", b"", "", BAD),
    Row("cut|1000001|4", b"", "", BAD),
    Row("cut|5|4294967296", b"", "", BAD),
    Row("cut|5|9999999999", b"", "", BAD),
    Row("cut|5|00000000004", b"", "", BAD),
    Row("cut|99999999999|4", b"", "", BAD),
    Row("cut|5|", b"", "", BAD),
    Row("cut||4", b"", "", BAD),
    Row("cut|+5|4", b"", "", BAD),
    Row("cut|-5|4", b"", "", BAD),
    Row("cut| 5|4", b"", "", BAD),
    Row("cut|5 |4", b"", "", BAD),
    Row("cut|5|4 4", b"", "", BAD),
    Row("cut|0x5|4", b"", "", BAD),
    Row("cut|५|4", b"", "", BAD),
    Row("Cut|5|4", b"", "", BAD),
    Row("cut |5|4", b"", "", BAD),
    Row("squares", b"", "", BAD),
    Row("squares|10|4", b"", "", BAD),
    Row("squares|10|4|4|4", b"", "", BAD),
    Row("squares|100001|4|4", b"", "", BAD),
    Row("squares|10|0|4", b"", "", BAD),
    Row("squares|10|65|4", b"", "", BAD),
    Row("squares|10|4|0", b"", "", BAD),
    Row("squares|10|4|100001", b"", "", BAD),
    Row("squares|0|4|0", b"", "", BAD),
    Row("slots", b"", "", BAD),
    Row("slots|10|4|8", b"", "", BAD),
    Row("slots|10|4|8|3|3", b"", "", BAD),
    Row("slots|100001|4|8|3", b"", "", BAD),
    Row("slots|10|65|8|3", b"", "", BAD),
    Row("slots|10|4|8|0", b"", "", BAD),
    Row("slots|10|4|8|100001", b"", "", BAD),
    Row("steps|0", b"", "", BAD),
    Row("steps|", b"", "", BAD),
    Row("Steps", b"", "", BAD),
    Row("grid", b"", "", BAD),
    Row("grid|16|16|4", b"", "", BAD),
    Row("grid|16|16|4|16|16", b"", "", BAD),
    Row("grid|0|16|4|16", b"", "", BAD),
    Row("grid|513|16|4|16", b"", "", BAD),
    Row("grid|16|0|4|16", b"", "", BAD),
    Row("grid|16|513|4|16", b"", "", BAD),
    Row("grid|16|16|0|16", b"", "", BAD),
    Row("grid|16|16|65|16", b"", "", BAD),
    Row("grid|16|16|4|0", b"", "", BAD),
    Row("grid|16|16|4|4097", b"", "", BAD),
    Row("Grid|16|16|4|16", b"", "", BAD),
    Row("cut|5|4\n", b"", "", BAD),
    Row("faults", b"", "", BAD),
    Row("faults|6|1|6", b"", "", BAD),
    Row("faults|6|1|6|2|2", b"", "", BAD),
    Row("faults|100001|1|6|2", b"", "", BAD),
    Row("faults|6|0|6|2", b"", "", BAD),
    Row("faults|6|65|6|2", b"", "", BAD),
    Row("faults|6|1|0|2", b"", "", BAD),
    Row("faults|0|4|0|0", b"", "", BAD),
    Row("faults|6|1|100001|2", b"", "", BAD),
    Row("faults|6|1|6|4294967296", b"", "", BAD),
    Row("faults|6|1|6|", b"", "", BAD),
    Row("Faults|6|1|6|2", b"", "", BAD),
    Row("|", b"", "", BAD),
];

// Lines of steps, of which the last may end with the input.
const LINES: &[Row] = &[
    Row("steps", b"", "", OK),
    Row("steps", b"join 0", "00010001\n", OK),
    Row("steps", b"join 0\n", "00010001\n", OK),
    Row("steps", b"join 0\njoin 1", "00010001\n00020002\n", OK),
    Row("steps", b"join 4294967295", "00010001\n", OK),
    Row("steps", b"join 0000000007", "00010001\n", OK),
    Row("steps", b"claim 4294967295 4294967295", "refused\n", OK),
    Row("steps", b"publish 0000000000 0000000002\n", "refused\n", OK),
    // What was answered before a bad line stands.
    Row("steps", b"join 0\njump 1\n", "00010001\n", LINE_2),
    Row("steps", b"join 0\njump 1", "00010001\n", LINE_2),
    Row("steps", b"join 0\n\njoin 1\n", "00010001\n", LINE_2),
    Row(
        "steps",
        b"join 0\nleave 0\nend\n",
        "00010001\nrefused\n",
        LINE_3,
    ),
    // Lines of 63, 64 and 65 bytes.
    Row(
        "steps",
        b"join 0000000000000000000000000000000000000000000000000000000000\n",
        "",
        LINE_1,
    ),
    Row(
        "steps",
        b"join 00000000000000000000000000000000000000000000000000000000000\n",
        "",
        LINE_1,
    ),
    Row(
        "steps",
        b"join 0\njoin 000000000000000000000000000000000000000000000000000000000000",
        "00010001\n",
        LINE_2,
    ),
];

// Lines that are no step.
const BAD_LINES: &[Row] = &[
    Row("steps", b"\n", "", LINE_1),
    Row("steps", b" ", "", LINE_1),
    Row("steps", b"join", "", LINE_1),
    Row("steps", b"join ", "", LINE_1),
    Row("steps", b"join  0", "", LINE_1),
    Row("steps", b" join 0", "", LINE_1),
    Row("steps", b"join 0 ", "", LINE_1),
    Row("steps", b"join 0 0", "", LINE_1),
    Row("steps", b"join 0\r\n", "", LINE_1),
    Row("steps", b"join\t0", "", LINE_1),
    Row("steps", b"join +1", "", LINE_1),
    Row("steps", b"join -1", "", LINE_1),
    Row("steps", b"join 1.0", "", LINE_1),
    Row("steps", b"join 0x1", "", LINE_1),
    Row("steps", b"join one", "", LINE_1),
    Row("steps", b"join 4294967296", "", LINE_1),
    Row("steps", b"join 9999999999", "", LINE_1),
    Row("steps", b"join 00000000000", "", LINE_1),
    Row("steps", b"Join 0", "", LINE_1),
    Row("steps", b"jump 1", "", LINE_1),
    Row("steps", b"publish 0", "", LINE_1),
    Row("steps", b"publish 0 5 5", "", LINE_1),
    Row("steps", b"publish  0 5", "", LINE_1),
    Row("steps", b"publish 0  5", "", LINE_1),
    Row("steps", b"publish 0 5 ", "", LINE_1),
    Row("steps", b"publish 0 4294967296", "", LINE_1),
    Row("steps", b"publish_try 0 5", "", LINE_1),
    Row("steps", b"claim 0", "", LINE_1),
    Row("steps", b"rest 0 0", "", LINE_1),
    Row("steps", b"join \xff", "", LINE_1),
];

#[test]
fn each_run_writes_its_row_and_ends_as_it_says(rt: HostRuntime) -> Result<(), Fail> {
    for rows in [RUNS, BAD_WORDS, LINES, BAD_LINES] {
        play(&rt, rows)?;
    }
    Ok(())
}

// The most items, threads, jobs and slots, and where the line of squares ends.
#[test]
fn the_largest_rounds_are_answered(rt: HostRuntime) -> Result<(), Fail> {
    for words in ["squares|100000|64|100000", "slots|100000|64|100000|100000"] {
        let most = outcome(&rt, words, b"")?;
        holds(
            &rt,
            most.end == OK && most.text.ends_with(b" 9999600004 9999800001\n"),
        );
    }
    Ok(())
}

//! Plays of the machine: the worked rows, a line of steps and the line that answers it.
use crate::checks::{holds, is};
use crate::trials::outcome;
use std::alloc::AllocError;
use std::sync::Wait;
use std::test::Fail;
use std::thread::Threads;

// A step, and its answer.
type Line = (&'static str, &'static str);

// A helper closes by leaving: the leader has arrived, and the last member that is in goes.
const CLOSED_BY_EXIT: &[Line] = &[
    ("join 0", "00010001"),
    ("join 1", "00020002"),
    ("publish 0 2", "00020002"),
    ("rest 0", "00020002 0"),
    ("finish 0", "00020002"),
    ("rest 0", "00020002 1"),
    ("finish 0", "00020002"),
    ("arrive 0", "00020001"),
    ("exit 1", "00010000"),
    ("leave 0", "refused"),
    ("exit 1", "refused"),
    ("clear 1", "00010000"),
    ("end 1", "80010001"),
];

// A helper comes in mid-round, waits, leaves, comes again and goes before the leader closes.
const COMES_AND_GOES: &[Line] = &[
    ("join 0", "00010001"),
    ("publish 0 2", "00010001"),
    ("join 1", "00020002"),
    ("rest 1", "00020002 0"),
    ("leave 1", "refused"),
    ("exit 1", "refused"),
    ("finish 1", "00020002"),
    ("rest 0", "00020002 1"),
    ("arrive 1", "00020001"),
    ("leave 1", "00010001"),
    ("finish 0", "00010001"),
    ("join 1", "00020002"),
    ("exit 1", "00010001"),
    ("arrive 0", "00010000"),
    ("join 1", "refused"),
    ("clear 0", "00010000"),
    ("end 0", "80010001"),
];

// A leave is refused under a closer.
const LEAVES_UNDER_A_CLOSER: &[Line] = &[
    ("join 0", "00010001"),
    ("join 1", "00020002"),
    ("arrive 0", "00020001"),
    ("arrive 1", "00020000"),
    ("leave 0", "refused"),
    ("clear 1", "00020000"),
    ("end 1", "80020002"),
];

// One leaves while it waits, and the other closes.
const LEAVES_WHILE_IT_WAITS: &[Line] = &[
    ("join 0", "00010001"),
    ("join 1", "00020002"),
    ("arrive 0", "00020001"),
    ("leave 0", "00010001"),
    ("arrive 1", "00010000"),
    ("clear 1", "00010000"),
    ("end 1", "80010001"),
];

// A sole exit ends the round.
const EXITS_ALONE: &[Line] = &[
    ("join 0", "00010001"),
    ("exit 0", "80000000"),
    ("join 1", "80010001"),
];

// The last one that is in exits, and closes.
const LAST_ONE_EXITS: &[Line] = &[
    ("join 0", "00010001"),
    ("join 1", "00020002"),
    ("join 2", "00030003"),
    ("arrive 0", "00030002"),
    ("arrive 1", "00030001"),
    ("exit 2", "00020000"),
    ("clear 2", "00020000"),
    ("end 2", "80020002"),
];

// A round of one party that it stops itself.
const STOPPED: &[Line] = &[
    ("join 0", "00010001"),
    ("publish-try 0 3", "00010001"),
    ("rest 0", "00010001 0"),
    ("stop 0", "00010001"),
    ("finish 0", "00010001"),
    ("rest 0", "refused"),
    ("arrive 0", "00010000"),
    ("clear 0", "00010000"),
    ("end 0", "80010001"),
];

// A round that may not stop.
const MAY_NOT_STOP: &[Line] = &[
    ("join 0", "00010001"),
    ("publish 0 3", "00010001"),
    ("rest 0", "00010001 0"),
    ("stop 0", "refused"),
];

// Another party sees the stop, and takes nothing more.
const SEEN: &[Line] = &[
    ("join 0", "00010001"),
    ("join 1", "00020002"),
    ("publish-try 0 8", "00020002"),
    ("see 1", "refused"),
    ("claim 0 0", "00020002 0"),
    ("stop 0", "00020002"),
    ("see 1", "00020002"),
    ("claim 1 1", "refused"),
    ("finish 0", "00020002"),
    ("arrive 1", "00020001"),
    ("arrive 0", "00020000"),
];

// A whole published round of two parties.
const WHOLE_ROUND: &[Line] = &[
    ("join 0", "00010001"),
    ("join 1", "00020002"),
    ("publish 1 5", "refused"),
    ("publish 0 1", "refused"),
    ("publish 0 5", "00020002"),
    ("claim 1 1", "00020002 1"),
    ("arrive 1", "refused"),
    ("finish 1", "00020002"),
    ("arrive 1", "refused"),
    ("rest 0", "00020002 4"),
    ("finish 0", "00020002"),
    ("claim 0 0", "00020002 0"),
    ("finish 0", "00020002"),
    ("claim 0 1", "refused"),
    ("claim 0 2", "00020002 2"),
    ("finish 0", "00020002"),
    ("claim 0 3", "00020002 3"),
    ("arrive 1", "00020001"),
    ("finish 0", "00020001"),
    ("exit 0", "refused"),
    ("arrive 0", "00020000"),
    ("join 2", "refused"),
    ("end 0", "refused"),
    ("clear 0", "00020000"),
    ("end 0", "80020002"),
    ("join 2", "80030003"),
];

const PLAYS: &[&[Line]] = &[
    WHOLE_ROUND,
    CLOSED_BY_EXIT,
    COMES_AND_GOES,
    LEAVES_UNDER_A_CLOSER,
    LEAVES_WHILE_IT_WAITS,
    EXITS_ALONE,
    LAST_ONE_EXITS,
    STOPPED,
    MAY_NOT_STOP,
    SEEN,
];

// Whether each line is answered as the play says; with a visitor, one more party comes and goes before each line at which there is
// no closer, but the first.
fn is_answered<H: Threads + Wait + AllocGlobal + Sync>(
    rt: &H,
    play: &[Line],
    visitor: bool,
) -> Result<bool, AllocError> {
    let mut input = String::new(rt.alloc());
    let mut text = String::new(rt.alloc());
    let mut word = 0;
    for (line, answer) in play {
        if visitor && word & 0x7fff != 0 {
            let with_visitor = u64::from(word) + 0x00010001;
            writeln!(input, "join 2\nexit 2")?;
            writeln!(text, "{with_visitor:08x}\n{word:08x}")?;
        }
        writeln!(input, "{line}")?;
        writeln!(text, "{answer}")?;
        word = word_of(answer).unwrap_or(word);
    }
    Ok(outcome(rt, "steps", input.as_bytes())?.is(text.as_str(), Ok(())))
}

// The barrier word that an answer begins with.
fn word_of(answer: &str) -> Option<u32> {
    u32::from_str_radix(answer.get(..8)?, 16).ok()
}

#[test]
fn each_play_is_answered_line_by_line(rt: HostRuntime) -> Result<(), Fail> {
    for play in PLAYS {
        holds(&rt, is_answered(&rt, *play, false)?);
    }
    for play in [CLOSED_BY_EXIT, COMES_AND_GOES] {
        holds(&rt, is_answered(&rt, play, true)?);
    }
    Ok(())
}

#[test]
fn the_last_place_is_taken(rt: HostRuntime) -> Result<(), Fail> {
    let mut input = String::new(rt.alloc());
    for party in 0..32768u32 {
        writeln!(input, "join {party}")?;
    }
    let played = outcome(&rt, "steps", input.as_bytes())?;
    is(
        &rt,
        (played.end, played.text.len()),
        (Ok(()), 32767 * 9 + 8),
    );
    holds(&rt, played.text.starts_with(b"00010001\n00020002\n"));
    holds(&rt, played.text.ends_with(b"7ffe7ffe\n7fff7fff\nrefused\n"));
    Ok(())
}

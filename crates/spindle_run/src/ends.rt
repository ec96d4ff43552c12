//! How runs end: the texts on standard error, the statuses, and what is written where memory is refused.
//!
//! The tests named `refused_` hold with any one allocation refused; `./do test` refuses each in turn.
use crate::checks::{holds, is};
use crate::trials::outcome;
use spindle_commands::Stop;
use std::test::Fail;

#[test]
fn texts_and_statuses(rt: HostRuntime) -> Result<(), Fail> {
    let rows = [
        (Stop::Words, "bad words", 2),
        (Stop::Line(7), "bad line 7", 2),
        (Stop::Memory, "no memory", 1),
        (Stop::Lost(3), "lost piece 3", 1),
        (Stop::Input, "input failed", 1),
        (Stop::Output, "output failed", 1),
    ];
    for (stop, text, status) in rows {
        is(&rt, format!(in rt.alloc(); "{stop}")?.as_str(), text);
        is(&rt, stop.status(), status);
    }
    Ok(())
}

// Small runs of each command but `steps`.
const SMALL: [(&str, &str); 8] = [
    ("cut|10|4", "3 3 2 2\n"),
    ("squares|10|4|4", "0 1 4 9 16 25 36 49 64 81\n"),
    ("squares|3|1|1", "0 1 4\n"),
    ("slots|10|4|8|3", "0 1 4 9 16 25 36 49 64 81\n"),
    ("slots|3|1|2|2", "0 1 4\n"),
    ("faults|6|1|6|2", "ran 0 1 2\nskipped 3 4 5\n"),
    ("faults|4|2|2|9", "ran 0 1\nskipped\n"),
    ("grid|2|4|2|2", "8 4 4\n"),
];

#[test]
fn refused_memory_leaves_no_half_line(rt: HostRuntime) -> Result<(), Fail> {
    for (words, text) in SMALL {
        if let Ok(trial) = outcome(&rt, words, b"") {
            holds(
                &rt,
                trial.is(text, Ok(())) || trial.is("", Err(Stop::Memory)),
            );
        }
    }
    Ok(())
}

#[test]
fn refused_memory_leaves_the_answers_before(rt: HostRuntime) -> Result<(), Fail> {
    let whole = "00010001\n00020002\n00030003\n00030002\n";
    if let Ok(trial) = outcome(&rt, "steps", b"join 0\njoin 7\njoin 900\narrive 7\n") {
        holds(&rt, whole.as_bytes().starts_with(trial.text.as_slice()));
        holds(&rt, trial.text.len() % 9 == 0);
        holds(
            &rt,
            trial.is(whole, Ok(())) || trial.end == Err(Stop::Memory),
        );
    }
    Ok(())
}

//! What faults say, which no clause tells.

use crate::checks::is;
use spindle_parts::fault::Fault;
use std::test::Fail;

#[test]
fn texts(rt: HostRuntime) -> Result<(), Fail> {
    for (fault, text) in [
        (Fault::Memory, "no memory"),
        (Fault::Lost(7), "lost piece 7"),
    ] {
        is(&rt, format!(in rt.alloc(); "{fault}")?.as_str(), text);
    }
    Ok(())
}

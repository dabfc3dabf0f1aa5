//! Writing all of some bytes to a sink.
ghost use Rattle.std.specs.Prelude.{OnOk, OnErr};
ghost use Rattle.az_outside.specs.Causes.{HasCause};
ghost use Rattle.az_outside.specs.Bytes.{GrewByFront};
ghost use Rattle.az_outside.specs.Turns.{GivesRest};

use crate::sink::Sink;
use thiserror::Error;

/// The sink failed.
#[derive(Clone, Copy, Debug, PartialEq, Eq, Error)]
#[error("a write failed")]
pub struct Fault;

/// Appends all the bytes, and gives the sink at each turn the whole rest. Fault only where the sink's count of faults
/// rose in this call; a prefix of the bytes was appended then.
pub fn write_all<O: Sink>(sink: &mut O, bytes: &[u8]) -> Result<(), Fault>
    ensures all { OnOk result (O.grew sink.old sink.new bytes.now) }
    ensures front { OnErr result (GrewByFront (O.grew sink.old sink.new) bytes.now) }
    ensures turns { GivesRest O.wrote sink.old sink.new bytes.now result }
    ensures cause { HasCause (O.faults sink.old) (O.faults sink.new) result }
{
    let mut done = 0;
    'turns: while done < bytes.len() {
        match sink.write(&bytes[done..]) {
            Ok(count) => done += count,
            Err(_) => return Err(Fault),
        }
    }
    Ok(())
}

ghost use Rattle.std.specs.Prelude.{MatchResult};
ghost use Rattle.environment.specs.Output.{Wrote, FailedWithin};

use crate::streams::{Failed, Sink};

/// Writes the whole piece, in as many writes as it takes. After an `Err` a proper front of it is written.
pub fn write_whole<K: Sink>(sink: &mut K, piece: &[u8]) -> Result<(), Failed>
    ensures { MatchResult result
        (λ _. Wrote piece.now (K.seen sink.old) (K.seen sink.new))
        (λ _. FailedWithin piece.now (K.seen sink.old) (K.seen sink.new)) }
{
    let mut done = 0;
    while done < piece.len() {
        done += sink.write(&piece[done..])?;
    }
    Ok(())
}

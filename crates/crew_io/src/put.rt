// Bytes, written whole.
ghost use Rattle.std.specs.Prelude.{length};
ghost use Rattle.crew_io.specs.Puts.{Puts};

use crate::sink::{Sink, WriteFault};
use crate::source::Failed;

/// Writes all bytes. After a fault the sink has taken a front of them, which may be all of them. It takes no
/// memory.
pub fn put_all<K: Sink>(sink: &mut K, bytes: &[u8]) -> Result<(), WriteFault>
    ensures puts { Puts K.Sink bytes.now sink.old sink.new result }
    ensures full { K.full sink.old → K.full sink.new }
{
    let mut at = 0;
    while at < bytes.len() {
        match sink.write(&bytes[at..]) {
            Ok(n) => at += n,
            Err(Failed) => return Err(WriteFault),
        }
    }
    Ok(())
}

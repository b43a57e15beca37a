//! Appends a text that stands in pieces, so that it takes no memory.
ghost use Rattle.std.specs.Prelude.{◌≡◌, ◌≢◌, ◌≤◌, OnOk, OnErr, Err, flat_map};
ghost use Rattle.std.specs.Io.KnownBytes.{Appends};
ghost use Rattle.px_io.specs.Causes.{Rose, AppendsPrefix};

use px_io::{PutFault, Sink, put_all};

/// Appends the pieces one after another. After a fault a prefix of them is appended, and the sink is asked no more.
pub fn put_pieces<K: Sink>(sink: &mut K, pieces: &[&[u8]]) -> Result<(), PutFault>
    ensures ok { OnOk result (Appends (K.written sink.old) (K.written sink.new) (flat_map (λ piece. piece.now) pieces.now)) }
    ensures err { OnErr result (AppendsPrefix (K.written sink.old) (K.written sink.new) (flat_map (λ piece. piece.now) pieces.now)) }
    ensures failed { result ≡ Err PutFault.Failed → Rose (K.faults sink.old) (K.faults sink.new) }
    ensures wanted { result ≡ Err PutFault.Memory → Rose (K.wants sink.old) (K.wants sink.new) }
    ensures quiet { result ≢ Err PutFault.Failed → K.faults sink.new ≡ K.faults sink.old }
    ensures spared { result ≢ Err PutFault.Memory → K.wants sink.new ≡ K.wants sink.old }
    ensures faults_later { K.faults sink.old ≤ K.faults sink.new }
    ensures wants_later { K.wants sink.old ≤ K.wants sink.new }
{
    for piece in pieces {
        put_all(sink, piece)?;
    }
    Ok(())
}

// The laws of whole streams: what reading and writing commands mean together.
ghost use Rattle.wire.specs.Streams.{StreamReads, StreamWrites, OneReading, OneEncoding};

// Its contract says that the commands written into a stream are those read from it, and the other way round.
pub fn stream_laws()
    ensures reads { StreamReads }
    ensures writes { StreamWrites }
    ensures reading { OneReading }
    ensures encoding { OneEncoding }
{}

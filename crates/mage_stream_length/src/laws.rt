// The law of the length.
ghost use Rattle.mage_stream_length.specs.Length.{StreamsAreNoLonger};

/// The stream of each worker of a program that can run has at most as many bytes as its instructions say, `stream_length`.
pub fn streams_are_no_longer()
    ensures { StreamsAreNoLonger }
{}

// A sink and a source in memory that tell nothing but how often they failed, as files of the system do.
ghost use Rattle.std.specs.Prelude.{None, false};

use mage_base::{Failed, MemSink, MemSource, Sink, Source};

/// A sink that tells nothing of what it has taken.
#[derive(Drop)]
pub struct QuietSink {
    pub sink: MemSink,
}

impl Sink for QuietSink {
    ghost tells = { λ quiet. record {
      taken = None;
      faults = quiet.sink.faults;
      steady = false;
      room = 0;
    } };

    fn put(&mut self, bytes: &[u8]) -> Result<(), Failed> {
        self.sink.put(bytes)
    }
}

/// A source that tells nothing of what it has left.
#[derive(Drop)]
pub struct QuietSource {
    pub source: MemSource,
}

impl Source for QuietSource {
    ghost tells = { λ quiet. record {
      left = None;
      faults = quiet.source.faults;
      steady = false;
    } };

    fn take(&mut self, into: &mut [u8]) -> Result<usize, Failed> {
        self.source.take(into)
    }
}

//! A stream of frames that the server of a partition serves.
ghost use Rattle.std.specs.Prelude.{◌≤ℤ◌, negsuc};

use kx_broker::PartitionMachine;
use kx_log::MemStore;
use kx_message::PartitionId;
use kx_stream::serve_stream;
use std::alloc::Global;
use std::io;
use std::io::Write;

// Counts the bytes that are written, and keeps none.
#[derive(Drop)]
struct Counting {
    count: u64,
}

impl Write for Counting {
    fn write(&mut self, buf: &[u8]) -> io::Result<usize> {
        self.count = self.count.saturating_add(buf.len() as u64);
        Ok(buf.len())
    }

    fn flush(&mut self) -> io::Result<()> {
        Ok(())
    }
}

// How many bytes of replies the server of partition 0, whose log is empty, writes.
fn replies(alloc: Global, stream: &[u8]) -> Option<u64> {
    let number = PartitionId::try_from(0).ok()?;
    let store = MemStore::new(Vec::new(alloc));
    let mut server = PartitionMachine::new(alloc, number, store).ok()?;
    let mut reader = stream;
    let mut writer = Counting { count: 0 };
    serve_stream(alloc, &mut reader, &mut writer, &mut server).ok()?;
    Some(writer.count)
}

/// Serves a stream of frames with the server of partition 0, whose log is empty and in memory: how
/// many bytes of replies it writes, or -1 if the stream isn't served to its end.
#[unsafe(no_mangle)]
pub extern "C" fn kx_bench_serve(alloc: Global, stream: &[u8]) -> i64
    ensures { negsuc 0 ≤ℤ result }
{
    match replies(alloc, stream) {
        Some(count) => i64::try_from(count).unwrap_or(i64::MAX),
        None => -1,
    }
}

//! How many recorded commands a crash leaves.
use std::alloc::{AllocError, Global};
use tsn_device::MemoryDevice;
use tsn_recorded::Reader;

// Lets the reader go on to the last line that it can give.
fn advance_all(reader: &mut Reader) {
    'lines: while reader.advance() {}
}

/// How many are read back where a crash leaves what is kept, and so many bytes of the others, or all where these are
/// fewer.
pub fn count_left(alloc: Global, device: &MemoryDevice, most: usize) -> Result<u64, AllocError> {
    let loose = device.written().len() - device.kept();
    let mut reader = Reader::new(alloc);
    reader.feed(device.left_by_crash(loose.min(most)))?;
    advance_all(&mut reader);
    Ok(reader.lines())
}

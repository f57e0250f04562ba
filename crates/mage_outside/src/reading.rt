// Reading files, which may give less than asked, be interrupted, or fail in mid-stream.
ghost use Rattle.std.specs.Prelude.{◌≤◌, length, IfOk};
ghost use Rattle.mage_base.specs.Desk.{IsNoFault};

use mage_base::DeskError;
use std::alloc::Global;
use std::io::{self, ErrorKind, Read};

const PIECE_BYTES: usize = 4096;

/// Reads what there is into the front of a piece, and answers how many bytes; 0 for a piece that isn't empty means the end.
/// A read that was interrupted is made again.
pub(crate) fn read_some<F: Read>(file: &mut F, into: &mut [u8]) -> io::Result<usize>
    ensures { IfOk result (λ count. count ≤ length into.new) }
{
    for _ in 0..u64::MAX {
        match file.read(into) {
            Ok(count) => return Ok(count),
            Err(error) => {
                if error.kind() != ErrorKind::Interrupted {
                    return Err(error);
                }
            }
        }
    }
    Err(io::Error::from(ErrorKind::Interrupted))
}

/// All bytes of a file, of which there are at most `limit`. `Memory` where there is none for them.
pub(crate) fn read_all<F: Read>(
    file: &mut F,
    alloc: Global,
    limit: u64,
) -> Result<Vec<u8>, DeskError>
    ensures { IfOk result (λ bytes. length bytes.items ≤ limit) }
{
    let mut bytes = Vec::new(alloc);
    let mut piece = [0u8; PIECE_BYTES];
    for _ in 0..u64::MAX {
        let count = read_some(file, &mut piece).map_err(|_| DeskError::Fault)?;
        if count == 0 {
            return Ok(bytes);
        }
        if count as u64 > limit - bytes.len() as u64 {
            return Err(DeskError::TooLong);
        }
        bytes
            .extend_from_slice(&piece[..count])
            .map_err(|_| DeskError::Memory)?;
    }
    Err(DeskError::Fault)
}

/// Fills a page from where the file stands. What lies past the end of the file was never written, and is zeros.
pub(crate) fn read_page<F: Read>(file: &mut F, page: &mut [u8]) -> io::Result<()> {
    let mut filled = 0;
    while filled < page.len() {
        let count = read_some(file, &mut page[filled..])?;
        if count == 0 {
            page[filled..].fill(0);
            return Ok(());
        }
        filled += count;
    }
    Ok(())
}

// Pages in memory, as the stores of tests keep them.
ghost use Rattle.std.specs.Prelude.{◌≡◌, ◌<◌, length, map, replicate, set, vec_len, IfOk};
ghost use Rattle.std.specs.List.{All};
ghost use Rattle.mage_base.specs.Store.{zero_page};

use crate::Memory;
use std::alloc::Global;

/// So many pages of zeros, of `page_bytes` bytes each. `Memory` where there is no room for them.
pub fn zero_pages(alloc: Global, count: u32, page_bytes: usize) -> Result<Vec<Vec<u8>>, Memory>
    ensures pages { IfOk result (λ pages.
        map (λ page. page.items) pages.items ≡ replicate count (zero_page page_bytes)) }
    ensures lengths { IfOk result (λ pages.
        All (λ page. length page.items ≡ page_bytes) pages.items) }
{
    let mut pages = Vec::with_capacity(alloc, count as usize)?;
    for _ in 0..count {
        let mut page = Vec::new(alloc);
        page.resize(page_bytes, 0)?;
        pages.push(page)?;
    }
    Ok(pages)
}

/// Writes a page over one of its length.
pub fn overwrite(pages: &mut Vec<Vec<u8>>, page: usize, from: &[u8])
    requires lengths { All (λ held. length held.items ≡ length from.now) pages.old.items }
    requires within { page < vec_len pages.old }
    ensures pages { map (λ held. held.items) pages.new.items
        ≡ set (map (λ held. held.items) pages.old.items) page from.now }
    ensures lengths { All (λ held. length held.items ≡ length from.now) pages.new.items }
{
    pages[page].copy_from_slice(from);
}

// The labels in some bytes.
ghost use Rattle.std.specs.Prelude.{◌≡◌, ◌*◌, IfOk, length};
ghost use Rattle.mage_label_files.specs.Labels.{labels_from};

use mage_base::Memory;
use mage_label::Label;
use std::alloc::Global;

// The label that 16 bytes are.
fn label_of(bytes: &[u8]) -> Label
    requires { length bytes.now ≡ 16 }
    ensures { result.bytes ≡ bytes.now }
{
    let mut label = Label { bytes: [0; 16] };
    label.bytes.copy_from_slice(bytes);
    label
}

/// The labels in some bytes, of 16 bytes each.
///
/// There are just as many bytes as all of them have. `Memory` where there is none for the labels.
pub fn labels_in(alloc: Global, count: usize, bytes: &[u8]) -> Result<Vec<Label>, Memory>
    requires { length bytes.now ≡ 16 * count }
    ensures { IfOk result (λ labels. labels.items ≡ labels_from count bytes.now) }
{
    let mut labels = Vec::new(alloc);
    for k in 0..count {
        labels.push(label_of(&bytes[16 * k..16 * k + 16]))?;
    }
    Ok(labels)
}

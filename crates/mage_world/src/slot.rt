// Slots, in which transfers of pages are under way.
ghost use Rattle.std.specs.Prelude.{◌≡◌, ◌<◌, ℕ, length};
ghost use Rattle.mage_bank.specs.Bank.{contents, bank_of, AreOf};
ghost use Rattle.mage_network.specs.Slots.{Reads, Writes};
ghost use Rattle.mage_world.specs.Slots.{AreLong, AreWithin, Begins, Claims, Serves, EndsRead, EndsWrite, in_slots, is_idle, is_asked, is_busy, has_read, has_written};

/// A page comes from the store, or goes to it.
#[derive(Clone, Copy)]
pub enum Transfer {
    Read { page: u32 },
    Write { page: u32 },
}

/// What a slot has.
#[derive(Clone, Copy)]
pub enum Work {
    Idle,
    Asked(Transfer),
    Busy(Transfer),
    Served(Transfer),
}

/// A slot, with room for the bytes of a page: those that a write takes, or that a read brought.
#[derive(Drop)]
pub(crate) struct Slot {
    pub(crate) work: Work,
    pub(crate) bytes: Vec<u8>,
}

/// A slot that is idle is asked to read a page. Whether it was idle; else nothing changes.
pub(crate) fn begin_read(slots: &mut Vec<Slot>, slot: u16, page: u32) -> bool
    requires inside { slot < length slots.old.items }
    ensures asked { Begins slots.old.items slots.new.items slot (Reads page) result }
    ensures within { (pages : ℕ) → page < pages → AreWithin pages slots.old.items
        → AreWithin pages slots.new.items }
{
    let slot = &mut slots[usize::from(slot)];
    match slot.work {
        Work::Idle => {
            slot.work = Work::Asked(Transfer::Read { page });
            true
        }
        _ => false,
    }
}

/// The same for a write of these bytes.
pub(crate) fn begin_write(slots: &mut Vec<Slot>, slot: u16, page: u32, bytes: &[u8]) -> bool
    requires inside { slot < length slots.old.items }
    requires long { AreLong (length bytes.now) slots.old.items }
    ensures asked { Begins slots.old.items slots.new.items slot (Writes page bytes.now) result }
    ensures within { (pages : ℕ) → page < pages → AreWithin pages slots.old.items
        → AreWithin pages slots.new.items }
{
    let slot = &mut slots[usize::from(slot)];
    match slot.work {
        Work::Idle => {
            slot.bytes.copy_from_slice(bytes);
            slot.work = Work::Asked(Transfer::Write { page });
            true
        }
        _ => false,
    }
}

/// A slot that is asked is claimed. Whether it was asked; else nothing changes.
pub(crate) fn claim(slots: &mut Vec<Slot>, slot: u16) -> bool
    requires inside { slot < length slots.old.items }
    ensures claimed { Claims slots.old.items slots.new.items slot result }
    ensures within { (pages : ℕ) → AreWithin pages slots.old.items
        → AreWithin pages slots.new.items }
{
    let slot = &mut slots[usize::from(slot)];
    match slot.work {
        Work::Asked(transfer) => {
            slot.work = Work::Busy(transfer);
            true
        }
        _ => false,
    }
}

/// The bytes of a claimed transfer go over. Whether the slot was claimed; else nothing changes.
pub(crate) fn serve(slots: &mut Vec<Slot>, slot: u16, pages: &mut Vec<Vec<u8>>) -> bool
    requires inside { slot < length slots.old.items }
    requires within { AreWithin (length pages.old.items) slots.old.items }
    requires whole { (bytes : ℕ) × AreLong bytes slots.old.items
        × AreOf (length pages.old.items) bytes (contents pages.old.items) }
    ensures served { Serves slots.old.items slots.new.items slot (contents pages.old.items)
        (contents pages.new.items) result }
    ensures within { (pages : ℕ) → AreWithin pages slots.old.items
        → AreWithin pages slots.new.items }
{
    let slot = &mut slots[usize::from(slot)];
    match slot.work {
        Work::Busy(Transfer::Read { page }) => {
            slot.bytes.copy_from_slice(pages[page as usize].as_slice());
            slot.work = Work::Served(Transfer::Read { page });
            true
        }
        Work::Busy(Transfer::Write { page }) => {
            pages[page as usize].copy_from_slice(slot.bytes.as_slice());
            slot.work = Work::Served(Transfer::Write { page });
            true
        }
        _ => false,
    }
}

/// A frame takes what a slot read. Whether its read was served; else nothing changes.
pub(crate) fn end_read(
    slots: &mut Vec<Slot>,
    slot: u16,
    frames: &mut Vec<Vec<u8>>,
    frame: u16,
) -> bool
    requires inside { slot < length slots.old.items }
    requires there { frame < length frames.old.items }
    requires long { AreLong (length (bank_of (contents frames.old.items) frame)) slots.old.items }
    ensures ended { EndsRead slots.old.items slots.new.items slot (contents frames.old.items)
        (contents frames.new.items) frame result }
    ensures within { (pages : ℕ) → AreWithin pages slots.old.items
        → AreWithin pages slots.new.items }
{
    let slot = &mut slots[usize::from(slot)];
    match slot.work {
        Work::Served(Transfer::Read { .. }) => {
            frames[usize::from(frame)].copy_from_slice(slot.bytes.as_slice());
            slot.work = Work::Idle;
            true
        }
        _ => false,
    }
}

/// Whether a slot's write was served, and then it is idle; else nothing changes.
pub(crate) fn end_write(slots: &mut Vec<Slot>, slot: u16) -> bool
    requires inside { slot < length slots.old.items }
    ensures ended { EndsWrite slots.old.items slots.new.items slot result }
    ensures within { (pages : ℕ) → AreWithin pages slots.old.items
        → AreWithin pages slots.new.items }
{
    let slot = &mut slots[usize::from(slot)];
    match slot.work {
        Work::Served(Transfer::Write { .. }) => {
            slot.work = Work::Idle;
            true
        }
        _ => false,
    }
}

/// Whether a slot is idle; one that isn't there is.
pub(crate) fn is_idle(slots: &[Slot], slot: u16) -> bool
    ensures { result ≡ is_idle (in_slots slots.now slot) }
{
    match slots.get(usize::from(slot)) {
        Some(slot) => matches!(slot.work, Work::Idle),
        None => true,
    }
}

/// Whether a slot is asked.
pub(crate) fn is_asked(slots: &[Slot], slot: u16) -> bool
    ensures { result ≡ is_asked (in_slots slots.now slot) }
{
    match slots.get(usize::from(slot)) {
        Some(slot) => matches!(slot.work, Work::Asked(_)),
        None => false,
    }
}

/// Whether a slot's transfer is claimed.
pub(crate) fn is_busy(slots: &[Slot], slot: u16) -> bool
    ensures { result ≡ is_busy (in_slots slots.now slot) }
{
    match slots.get(usize::from(slot)) {
        Some(slot) => matches!(slot.work, Work::Busy(_)),
        None => false,
    }
}

/// Whether a slot has what it read.
pub(crate) fn has_read(slots: &[Slot], slot: u16) -> bool
    ensures { result ≡ has_read (in_slots slots.now slot) }
{
    match slots.get(usize::from(slot)) {
        Some(slot) => matches!(slot.work, Work::Served(Transfer::Read { .. })),
        None => false,
    }
}

/// Whether a slot has written its page.
pub(crate) fn has_written(slots: &[Slot], slot: u16) -> bool
    ensures { result ≡ has_written (in_slots slots.now slot) }
{
    match slots.get(usize::from(slot)) {
        Some(slot) => matches!(slot.work, Work::Served(Transfer::Write { .. })),
        None => false,
    }
}

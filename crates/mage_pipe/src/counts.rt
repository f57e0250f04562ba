// What is counted over places, a trace and a list.
ghost use Rattle.std.specs.Prelude.{◌≡◌, ◌≤◌};
ghost use Rattle.mage_instr.specs.declared.instr.TheConstants.{NEVER};
ghost use Rattle.mage_place.specs.Places.{next_page};
ghost use Rattle.mage_belady.specs.Rule.{loads_of};
ghost use Rattle.mage_pipe.specs.Summary.{most_pages, saves_of};

use mage_instr::{Place, Replaced, Step};

// How many pages the places stand on.
pub(crate) fn page_count(places: &[Place]) -> u32
    requires { next_page places.now ≤ NEVER }
    ensures { result ≡ next_page places.now }
{
    let mut count = 0;
    for place in places {
        if count <= place.page {
            count = place.page + 1;
        }
    }
    count
}

// The most pages of a step.
pub(crate) fn most_pages(trace: &[Step]) -> u8
    ensures { result ≡ most_pages trace.now }
{
    let mut most = 0;
    for step in trace {
        most = step.count.max(most);
    }
    most
}

// The page reads of a list.
pub(crate) fn loads(list: &[Replaced]) -> u64
    ensures { result ≡ loads_of list.now }
{
    let mut count = 0;
    for entry in list {
        if let Replaced::Load { .. } = entry {
            count += 1;
        }
    }
    count
}

// The page writes of a list.
pub(crate) fn saves(list: &[Replaced]) -> u64
    ensures { result ≡ saves_of list.now }
{
    let mut count = 0;
    for entry in list {
        if let Replaced::Save { .. } = entry {
            count += 1;
        }
    }
    count
}

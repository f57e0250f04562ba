// What is printed of a program.
ghost use Rattle.mage_instr.specs.Limits.{IsPageSize};

use crate::job::{Job, Lives};
use crate::lists::{long_lived, short_lived};
use mage_base::Memory;
use mage_instr::{NEVER, Place};
use mage_next::next_uses;
use mage_place::{page_tight, place};
use std::alloc::Global;

/// How many pages there are, how many steps, and how many of the pages of steps are used again.
#[derive(Clone, Copy)]
pub struct Report {
    pub instructions: usize,
    pub pages: usize,
    pub steps: usize,
    pub uses: usize,
}

pub fn report_of(alloc: Global, job: Job) -> Result<Report, Memory>
    requires { IsPageSize job.page }
{
    let list = match job.lives {
        Lives::Short => short_lived(alloc, job.count, 32)?,
        Lives::Wide => short_lived(alloc, job.count, 64)?,
        Lives::Long => long_lived(alloc, job.count)?,
    };
    let unplaced = Report {
        instructions: list.len(),
        pages: 0,
        steps: 0,
        uses: 0,
    };
    if !job.placed {
        return Ok(unplaced);
    }
    if let Some(_) = page_tight(&list, job.page) {
        return Ok(unplaced);
    }
    let (places, trace) = place(alloc, &list, job.page)?;
    let uses = next_uses(alloc, &trace)?;
    Ok(Report {
        instructions: list.len(),
        pages: pages_of(&places),
        steps: trace.len(),
        uses: later_uses(&uses),
    })
}

fn pages_of(places: &[Place]) -> usize {
    let mut pages = 0;
    for place in places {
        pages = usize::max(pages, place.page as usize + 1);
    }
    pages
}

fn later_uses(uses: &[[u32; 4]]) -> usize {
    let mut later = 0usize;
    for steps in uses {
        later = later.saturating_add(steps.iter().filter(|&&step| step != NEVER).count());
    }
    later
}

// How many transfers of each page some directives issue.
ghost use Rattle.std.specs.Prelude.{◌≡◌, ◌<◌, ◌+◌, ◌-◌, ◌∷◌, [], ℕ, if◌then◌else◌, nat_eq, IfOk, OnOk};
ghost use Rattle.mage_sched.specs.Homes.{names, transfers_of};
ghost use Rattle.mage_sched.specs.Reads.{is_page};
ghost use Rattle.mage_sched.specs.Views.{count_in};

use mage_base::Memory;
use mage_instr::Directive;
use std::alloc::Global;
use std::collections::HashMap;

// The page that a directive names, where it issues a transfer.
fn page_named(directive: Directive) -> Option<u32>
    ensures { (page : ℕ) → names directive page ≡ is_page result page }
{
    match directive {
        Directive::IssueIn { page, .. } | Directive::IssueOut { page, .. } => Some(page),
        Directive::Fresh { .. } | Directive::FinishIn { .. } => None,
        Directive::FinishOut { .. } | Directive::Do(_) => None,
    }
}

// One more transfer of a page.
fn add_one(counts: &mut HashMap<u32, usize>, page: u32) -> Result<(), Memory>
    requires { count_in counts.old page < 18446744073709551615 }
    ensures { OnOk result ((other : ℕ) → count_in counts.new other
        ≡ (if nat_eq page other then count_in counts.old other + 1 else count_in counts.old other)) }
{
    let count = counts.get(&page).copied().unwrap_or(0);
    counts.insert(page, count + 1)?;
    Ok(())
}

// One transfer of a page less.
pub(crate) fn take_one(counts: &mut HashMap<u32, usize>, page: u32) -> Result<usize, Memory>
    ensures left { IfOk result (λ left. left ≡ count_in counts.new page) }
    ensures counts { OnOk result ((other : ℕ) → count_in counts.new other
        ≡ (if nat_eq page other then count_in counts.old other - 1 else count_in counts.old other)) }
{
    let left = counts.get(&page).copied().unwrap_or(0).saturating_sub(1);
    counts.insert(page, left)?;
    Ok(left)
}

// One more directive.
fn count(counts: &mut HashMap<u32, usize>, directive: Directive) -> Result<(), Memory>
    requires { (page : ℕ) → count_in counts.old page + transfers_of
        (directive ∷ []) page < 18446744073709551616 }
    ensures { OnOk result ((page : ℕ) → count_in counts.new page
        ≡ count_in counts.old page + transfers_of (directive ∷ []) page) }
{
    if let Some(page) = page_named(directive) {
        add_one(counts, page)?;
    }
    Ok(())
}

/// How many transfers of each page some directives issue.
pub(crate) fn transfers_of(
    alloc: Global,
    directives: &[Directive],
) -> Result<HashMap<u32, usize>, Memory>
    ensures { IfOk result (λ counts. (page : ℕ) → count_in counts page
        ≡ transfers_of directives.now page) }
{
    let mut counts = HashMap::new(alloc);
    for k in 0..directives.len() {
        count(&mut counts, directives[k])?;
    }
    Ok(counts)
}

//! Parts by the regions that lead them.

ghost use Rattle.std.specs.Prelude.{◌≡◌, ◌<◌, [], ◌∷◌, ◌++◌, nat_eq, vec_capacity, OnOk, IfOk};
ghost use Rattle.std.specs.List.{AllByRecursion, list_any};
ghost use Rattle.fine_model.specs.RowBytes.{most_in_log};
ghost use Rattle.fine_model.specs.Boards.{set_of};
ghost use Rattle.fine_model.specs.Chain.{regions_of};
ghost use Rattle.epoch_room.specs.Erasing.{led_by, unheld_of, without};
ghost use Rattle.epoch_room.specs.Value.{all_regions};
ghost use Rattle.epoch_room.specs.Whole.{HasRegions};

use fine_model::{NoMemory, Part};
use log_disk::LogEye;
use partition_hold::{Board, RegionSet};
use std::alloc::Global;

/// Whether a region is one of these.
fn is_lead(leads: &[u32], region: u32) -> bool
    ensures { result ≡ list_any (nat_eq region) leads.now }
{
    leads.iter().any(|lead| region == *lead)
}

/// Adds the regions of a part.
pub fn add_part(set: &mut RegionSet, part: &Part)
    requires has { HasRegions part.now }
    requires small { AllByRecursion (λ region. region < most_in_log) (regions_of part.now) }
    ensures { set.new ≡ set_of (set.old ++ regions_of part.now) }
{
    let behind = usize::from(part.header.regions) - 1;
    set.insert(part.region);
    set.insert_all(&part.header.more[..behind]);
}

/// Adds the regions of a part if one of these regions leads it.
fn add_if_led(set: &mut RegionSet, leads: &[u32], part: &Part)
    requires has { HasRegions part.now }
    requires small { AllByRecursion (λ region. region < most_in_log) (regions_of part.now) }
    requires ordered { set_of set.old ≡ set.old }
    ensures added { set.new ≡ set_of (set.old ++ all_regions (led_by leads.now (part.now ∷ []))) }
    ensures ordered { set_of set.new ≡ set.new }
{
    if is_lead(leads, part.region) {
        add_part(set, part);
    }
}

/// Adds all regions of the parts that these regions lead.
pub fn add_led(set: &mut RegionSet, leads: &[u32], parts: &[Part])
    requires each { AllByRecursion HasRegions parts.now }
    requires small { AllByRecursion (λ p. AllByRecursion (λ region. region < most_in_log) (regions_of p)) parts.now }
    requires ordered { set_of set.old ≡ set.old }
    ensures { set.new ≡ set_of (set.old ++ all_regions (led_by leads.now parts.now)) }
{
    for part in parts {
        add_if_led(set, leads, part);
    }
}

/// Takes the parts out that these regions lead. It takes no memory.
pub fn keep_others(parts: &mut Vec<Part>, leads: &[u32])
    ensures others { parts.new.items ≡ without leads.now parts.old.items }
    ensures capacity { vec_capacity parts.new ≡ vec_capacity parts.old }
{
    parts.retain(|part| !is_lead(leads, part.region));
}

/// Puts the lead of a part behind others if no view names it.
fn push_unheld<E: LogEye>(
    leads: &mut Vec<u32>,
    board: &Board<E>,
    part: &Part,
) -> Result<(), NoMemory>
    requires small { part.now.region < most_in_log }
    ensures { OnOk result (leads.new.items ≡ leads.old.items ++ unheld_of board.now (part.now ∷ [])) }
{
    if board.names(part.region).is_some() {
        return Ok(());
    }
    leads.push(part.region)?;
    Ok(())
}

/// The leads of the parts that no view names, in their order.
pub fn unheld_leads<E: LogEye>(
    alloc: Global,
    board: &Board<E>,
    parts: &[Part],
) -> Result<Vec<u32>, NoMemory>
    requires small { AllByRecursion (λ p. p.region < most_in_log) parts.now }
    ensures { IfOk result (λ leads. leads.items ≡ unheld_of board.now parts.now) }
{
    let mut leads = Vec::new(alloc);
    for part in parts {
        push_unheld(&mut leads, board, part)?;
    }
    Ok(leads)
}

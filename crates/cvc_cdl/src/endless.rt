//! Cells that never end: those in which chains of uses of every length start.
ghost use Rattle.std.specs.Prelude.{◌≡◌, ℕ, ◌<◌, ◌≤◌, ◌+◌, ◌-◌, ◌*◌, ◌==◌, ◌++◌, List, length, map, not, slice_index, slice_set, All, IfOk, OnOk};
ghost use Rattle.cvc_cdl.specs.Chains.{AreBelow, TellsEndless, all_numbers, used_at};
ghost use Rattle.cvc_cdl.specs.Peeling.{AreListed, AreUsers, one_if, times};

use cvc_base::NoMemory;
use std::alloc::Global;

// How many uses each cell has.
fn counts_of(alloc: Global, uses: &[Vec<usize>]) -> Result<Vec<usize>, NoMemory>
    ensures { IfOk result (λ counts. counts.items ≡ map (λ used. length used.items) uses.now) }
{
    Ok(uses.iter().map(|used| used.len()).collect(alloc)?)
}

// Notes a cell as a user of each of these cells.
fn add_user(users: &mut [Vec<usize>], used: &[usize], user: usize) -> Result<(), NoMemory>
    requires { All (λ i. i < length users.old) used.now }
    ensures { OnOk result ((i j : ℕ) → j < length users.old
        → times i (used_at (all_numbers users.new) j) ≡ times i (used_at (all_numbers users.old) j) + one_if (user == i) * times j used.now) }
{
    for cell in used {
        users[*cell].push(user)?;
    }
    Ok(())
}

// The users of each cell.
fn users_of(alloc: Global, uses: &[Vec<usize>]) -> Result<Vec<Vec<usize>>, NoMemory>
    requires { AreBelow (all_numbers uses.now) }
    ensures { IfOk result (λ users. AreUsers (all_numbers uses.now) (all_numbers users.items)) }
{
    let mut users = Vec::new(alloc);
    for _ in uses {
        users.push(Vec::new(alloc))?;
    }
    for (user, used) in uses.iter().enumerate() {
        add_user(&mut users, used, user)?;
    }
    Ok(users)
}

// The cells that have no use.
fn without_uses(alloc: Global, left: &[usize]) -> Result<Vec<usize>, NoMemory>
    ensures { IfOk result (λ finite. AreListed left.now finite.items) }
{
    let mut finite = Vec::new(alloc);
    for (cell, count) in left.iter().enumerate() {
        if *count == 0 {
            finite.push(cell)?;
        }
    }
    Ok(finite)
}

// Takes a use from a cell, and lists it if it has none left.
fn take_use(left: &mut [usize], finite: &mut Vec<usize>, cell: usize) -> Result<(), NoMemory>
    requires cell { cell < length left.old }
    requires some { 0 < slice_index left.old cell }
    requires listed { AreListed left.old finite.old.items }
    ensures left { OnOk result (left.new ≡ slice_set left.old cell (slice_index left.old cell - 1)) }
    ensures listed { OnOk result (AreListed left.new finite.new.items) }
    ensures more { OnOk result ((more : List ℕ) × (finite.new.items ≡ finite.old.items ++ more)) }
{
    left[cell] -= 1;
    if left[cell] == 0 {
        finite.push(cell)?;
    }
    Ok(())
}

// Takes one use from each of these cells, and lists those that have none left.
fn take_uses(users: &[usize], left: &mut [usize], finite: &mut Vec<usize>) -> Result<(), NoMemory>
    requires below { All (λ i. i < length left.old) users.now }
    requires enough { (i : ℕ) → times i users.now ≤ slice_index left.old i }
    requires listed { AreListed left.old finite.old.items }
    ensures taken { OnOk result ((i : ℕ) → slice_index left.new i + times i users.now ≡ slice_index left.old i) }
    ensures listed { OnOk result (AreListed left.new finite.new.items) }
    ensures more { OnOk result ((more : List ℕ) × (finite.new.items ≡ finite.old.items ++ more)) }
{
    for user in users {
        take_use(left, finite, *user)?;
    }
    Ok(())
}

// For each cell whether it has a use left.
fn have_uses(alloc: Global, left: &[usize]) -> Result<Vec<bool>, NoMemory>
    ensures { IfOk result (λ answers. answers.items ≡ map (λ count. not (count == 0)) left.now) }
{
    Ok(left.iter().map(|count| *count != 0).collect(alloc)?)
}

/// Which cells are endless: `uses[i]` has the numbers of the cells that the instances of cell `i` name. It is linear in the number of
/// cells and uses.
pub(crate) fn endless_cells(alloc: Global, uses: &[Vec<usize>]) -> Result<Vec<bool>, NoMemory>
    requires { AreBelow (all_numbers uses.now) }
    ensures { IfOk result (λ answers. TellsEndless (all_numbers uses.now) answers.items) }
{
    let users = users_of(alloc, uses)?;
    let mut left = counts_of(alloc, uses)?;
    let mut finite = without_uses(alloc, &left)?;
    let mut taken = 0;
    while taken < finite.len() {
        let cell = finite[taken];
        take_uses(&users[cell], &mut left, &mut finite)?;
        taken += 1;
    }
    have_uses(alloc, &left)
}

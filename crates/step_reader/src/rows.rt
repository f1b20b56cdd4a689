ghost use Rattle.std.specs.Prelude.{◌≡◌, ◌≤◌, ◌<◌, ◌+◌, ◌^◌, All, length, OnOk};
ghost use Rattle.step_reader.specs.Cells as spec;

use htn_base::Memory;

/// The own cell of a step with so many children, where the cells that it names lie one above the other. A step without children
/// names the cell below its own too.
pub(crate) fn own_cell(children: usize, cells: &[u32]) -> Option<u32>
    ensures { spec.IsOwnCell children cells.now result }
{
    if children == 0 {
        falling(cells)
    } else {
        rising(children, cells)
    }
}

/// The second of two cells, where it lies above the first.
fn falling(cells: &[u32]) -> Option<u32>
    ensures { spec.IsOwnCell 0 cells.now result }
{
    let below = *cells.first()?;
    let own = *cells.get(1)?;
    if cells.len() == 2 && own > 0 && below == own - 1 {
        Some(own)
    } else {
        None
    }
}

/// The first of so many cells, where each other lies above the one before it.
fn rising(children: usize, cells: &[u32]) -> Option<u32>
    requires some { 0 < children }
    ensures { spec.IsOwnCell children cells.now result }
{
    let own = *cells.first()?;
    if own == 0 {
        return None;
    }
    if cells.len() != children {
        return None;
    }
    for (k, cell) in cells.iter().enumerate() {
        if *cell as usize != own as usize + k {
            return None;
        }
    }
    Some(own)
}

/// Gives each child of a line its cell: the last this one, and each other the one above the next.
pub(crate) fn place(line: &[u32], cell: u32, cells: &mut Vec<u32>)
    requires long { length cells.old.items ≡ length line.now }
    requires within { All (λ i. i < length line.now) line.now }
    requires once { spec.AreOnce line.now }
    requires room { cell + length line.now ≤ 2 ^ 32 }
    ensures long { length cells.new.items ≡ length line.now }
    ensures placed { spec.ArePlaced line.now cell (length line.now) cells.new.items }
{
    let many = line.len();
    for (k, child) in line.iter().enumerate() {
        cells[*child as usize] = cell + (many - 1 - k) as u32;
    }
}

/// Writes down the cells of the children other than the heir, in place of what was written there.
pub(crate) fn fill_others(
    heir: Option<u32>,
    cells: &[u32],
    into: &mut Vec<u32>,
) -> Result<(), Memory>
    requires few { length cells.now < 2 ^ 32 }
    ensures { OnOk result (into.new.items ≡ spec.others_in heir cells.now) }
{
    into.clear();
    for (child, cell) in cells.iter().enumerate() {
        if heir == Some(child as u32) {
            continue;
        }
        into.push(*cell)?;
    }
    Ok(())
}

ghost use Rattle.std.specs.Prelude.{◌≡◌, ◌<◌, ◌≤◌, length, MatchOption, MatchResult};
ghost use Rattle.cells.specs.Maps.{size_of, Fresh, Empty, SameCells};
ghost use Rattle.cells.specs.Repeats.{Distinct, FirstRepeat};

use crate::cell::Cell;
use crate::refusal::FewCells;
use crate::table::Table;
use keys::sector::SectorNumber;

/// The first place of a list at which a number stands that stood before. The cells are lent for this question
/// alone, and empty after it.
pub fn find_repeat(
    cells: &mut [Cell<SectorNumber>],
    numbers: &[u32],
) -> Result<Option<usize>, FewCells>
    ensures empty { Empty cells.new }
    ensures answer { MatchResult result
        (λ place. (length numbers.now ≤ length cells.old) × MatchOption place (Distinct numbers.now) (FirstRepeat numbers.now))
        (λ _. length cells.old < length numbers.now) }
{
    let mut table = Table::new(cells);
    if table.capacity() < numbers.len() {
        return Err(FewCells);
    }
    let place = first_repeat(&mut table, numbers);
    table.clear();
    Ok(place)
}

/// Puts the numbers into an empty table, up to the first that is there already.
fn first_repeat(table: &mut Table<SectorNumber>, numbers: &[u32]) -> Option<usize>
    requires fresh { Fresh table.old }
    requires room { length numbers.now ≤ size_of table.old }
    ensures cells { SameCells table.old.cells table.new.cells }
    ensures place { MatchOption result (Distinct numbers.now) (FirstRepeat numbers.now) }
{
    // A loop and no `position`, since a closure that puts keys into the table would leave its answers unknown.
    for (place, number) in numbers.iter().enumerate() {
        let key = SectorNumber(*number);
        if table.find(&key).is_some() {
            return Some(place);
        }
        // There is a cell for each number, so none is refused.
        let _ = table.insert(key, 0);
    }
    None
}

// A table that is handed in.
ghost use Rattle.std.specs.Prelude.{◌≡◌, length};
ghost use Rattle.refusal.specs.Said.{said_by};
ghost use Rattle.table.specs.Table.{capacity_of};
ghost use Rattle.table.specs.Testing.{counted};

use refusal::Refusal;

// Its cells, and how many rows it is said to hold.
#[derive(Clone, Copy)]
pub struct GivenTable<'a> {
    pub cells: &'a [usize],
    pub count: usize,
}

impl<'a> GivenTable<'a> {
    // 15 at the capacity, where so many rows have no room in the cells or are above `limit`.
    #[tactic(auto, unfolding(crate::specs::Testing::counted))]
    pub fn check_count(self, width: usize, limit: usize) -> Result<(), Refusal>
        ensures { said_by result ≡ counted (capacity_of (length self.entry.cells.now) width limit) self.entry.count }
    {
        let room = crate::capacity(self.cells.len(), width, limit);
        if room < self.count {
            return Err(Refusal::BadTable(room));
        }
        Ok(())
    }
}

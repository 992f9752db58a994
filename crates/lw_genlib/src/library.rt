ghost use Rattle.std.specs.Prelude.{◌≡◌, ◌<◌, IfOk, map};
ghost use Rattle.std.specs.List.{IsDistinct};
ghost use Rattle.std.specs.Str.{bytes_eq};
ghost use Rattle.lw_genlib.specs.Cells.{names_of, bytes_of};

use crate::Cell;
use indexmap::IndexSet;
use lw_pool::CellId;
use std::alloc::{AllocError, Global};
use std::marker::Model;

/// The cells of a library, whose names differ.
#[derive(Drop)]
pub struct Library {
    cells: Vec<Cell>,
    names: IndexSet<Vec<u8>>,
}

impl Model for Library {
    ghost use Rattle.std.specs.Prelude.{List};
    ghost use Rattle.lw_genlib.specs.Cells.{CellParts, IsIndexed};
    ghost use Rattle.lw_genlib.specs.Codes.{cells_code};

    ghost Value = { List CellParts };

    ghost coded = { cells_code };

    ghost view = { λ l. l.cells.items };

    ghost invariant = { λ l. IsIndexed l.cells.items l.names.keys };
}

impl Library {
    ghost use Rattle.std.specs.Prelude.{◌≡◌, ◌<◌, IfOk, IfSome, IfNone, Some, Contains, length};
    ghost use Rattle.std.specs.Prelude.{slice_get};
    ghost use Rattle.lw_genlib.specs.Cells.{IsLibrary, names_of};

    /// The library of these cells.
    pub fn new(alloc: Global, cells: Vec<Cell>) -> Result<Self, AllocError>
        requires { IsLibrary cells.items }
        ensures { IfOk result (λ lib. lib ≡ cells.items) }
    {
        let names = index(alloc, &cells)?;
        Ok(Library { cells, names })
    }

    /// The number of cells.
    pub fn len(&self) -> u32
        ensures len { result ≡ length self.now }
        ensures kept { IsLibrary self.now }
    {
        self.cells.len() as u32
    }

    /// The cell with a number.
    pub fn cell(&self, id: CellId) -> &Cell
        requires { id.0 < length self.now }
        ensures { slice_get self.now id.0 ≡ Some result.now }
    {
        &self.cells[id.0 as usize]
    }

    /// The number of the cell with a name, without memory.
    pub fn find(&self, name: &[u8]) -> Option<CellId>
        ensures found { IfSome result (λ id. slice_get (names_of self.now) id.0 ≡ Some name.now) }
        ensures none { IfNone result (¬ Contains (names_of self.now) name.now) }
    {
        match self.names.get_index_of(name) {
            Some(place) => Some(CellId(place as u32)),
            None => None,
        }
    }
}

// The names of cells, to be looked up.
fn index(alloc: Global, cells: &[Cell]) -> Result<IndexSet<Vec<u8>>, AllocError>
    requires { IsDistinct bytes_eq (names_of cells.now) }
    ensures { IfOk result (λ set. map bytes_of set.keys ≡ names_of cells.now) }
{
    let mut names = IndexSet::new(alloc);
    for cell in cells {
        names.insert(Vec::from_slice(alloc, cell.name().as_bytes())?)?;
    }
    Ok(names)
}

// Rays with their zero sets.

ghost use Rattle.std.specs.Prelude.{OnOk, [], length, ◌++◌, ◌∷◌, ◌≡◌};

use pm_bits::{BitRow, BitTable};
use pm_vector::Ints;
use std::alloc::{AllocError, Global};

/// A ray with its zero set.
#[derive(Drop)]
pub(crate) struct Ray {
    pub row: Ints,
    pub zeros: BitRow,
}

/// The rays of a front, with their zero sets.
#[derive(Drop)]
pub struct Rays {
    pub rows: Vec<Ints>,
    pub zeros: BitTable,
}

impl Rays {
    /// No rays, for zero sets of `len` rows.
    pub(crate) fn new(alloc: Global, len: usize) -> Rays
        ensures rows { result.rows.items ≡ [] }
        ensures zeros { result.zeros.rows ≡ [] }
        ensures row_len { result.zeros.row_len ≡ len }
    {
        Rays {
            rows: Vec::new(alloc),
            zeros: BitTable::new(alloc, len),
        }
    }

    /// Adds a ray with its zero set at the end.
    pub(crate) fn add(&mut self, ray: Ray) -> Result<(), AllocError>
        requires { length ray.zeros ≡ self.old.zeros.row_len }
        ensures rows { OnOk result (self.new.rows.items ≡ self.old.rows.items ++ ray.row ∷ []) }
        ensures zeros { OnOk result (self.new.zeros.rows ≡ self.old.zeros.rows ++ ray.zeros ∷ []) }
        ensures row_len { self.new.zeros.row_len ≡ self.old.zeros.row_len }
    {
        self.rows.push(ray.row)?;
        let Ok(()) = self.zeros.push(ray.zeros) else {
            return Err(AllocError);
        };
        Ok(())
    }
}

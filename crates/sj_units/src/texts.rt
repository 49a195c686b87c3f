// A text of units: a contract sees of it the list of its units.
ghost use Rattle.std.specs.Prelude.{◌≡◌, ◌↔◌, IfOk, IsTrue};
ghost use Rattle.sj_units.specs.Modified.{IsText};

use crate::NoMemory;
use std::fmt;
use std::marker::Model;
use std::rc::RcSlice;

/// A text of 16-bit units, in which surrogates may stand alone. A copy shares the units.
#[derive(Drop)]
pub struct Units {
    units: RcSlice<u16>,
}

impl Model for Units {
    ghost use Rattle.std.specs.Prelude.{List, ℕ};
    ghost use Rattle.std.specs.Rc.{rc_slice_items};
    ghost use Rattle.sj_units.specs.Modified.{IsText};

    ghost Value = { List ℕ };

    ghost view = { λ u. rc_slice_items u.units };

    ghost invariant = { λ u. IsText (rc_slice_items u.units) };
}

impl Units {
    /// The text of these units.
    pub fn from_vec(units: Vec<u16>) -> Result<Units, NoMemory>
        requires { IsText units.items }
        ensures { IfOk result (λ u. u ≡ units.items) }
    {
        let units = RcSlice::from_vec(units)?;
        Ok(Units { units })
    }

    /// The units as a slice.
    pub fn as_slice(&self) -> &[u16]
        ensures units { result.now ≡ self.now }
        ensures text { IsText self.now }
    {
        self.units.as_slice()
    }

    /// The same text once more, which shares the units.
    pub fn copied(&self) -> Result<Units, NoMemory>
        ensures { IfOk result (λ u. u ≡ self.now) }
    {
        let units = self.units.clone()?;
        Ok(Units { units })
    }

    /// Whether both texts have the same units.
    pub fn is_same(&self, other: &Units) -> bool
        ensures { IsTrue result ↔ (self.now ≡ other.now) }
    {
        self.as_slice() == other.as_slice()
    }
}

impl fmt::Debug for Units {
    fn fmt<W: fmt::Write>(&self, f: &mut fmt::Formatter<W>) -> fmt::Result {
        fmt::Debug::fmt(&self.as_slice(), f)
    }
}
